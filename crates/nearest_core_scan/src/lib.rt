// Disjoint cores of a state, found in the state's own space.
#![tactic(auto)]

mod assumable;
mod assume;
mod broken;
mod close;
mod progress;
mod scan;

pub use assume::NO_LIMIT;
pub use scan::find_cores;
