// Nearest's search, by disjoint cores, from a state.
#![tactic(auto)]

mod search;

pub use search::attempt;
