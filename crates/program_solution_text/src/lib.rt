// The lines of a choice that was found, as solvers print them.
#![tactic(auto)]

mod solution;
mod values;

pub use solution::put_found;
