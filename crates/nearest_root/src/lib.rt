// The search by disjoint cores from its root: every variable unassigned.
#![tactic(auto)]

mod bound;
mod into;
mod root;

pub use bound::root_bound;
pub use into::search_within;
