// Narrowing a state for a limit: unit propagation, disjoint cores, and the wishes that must be kept.
#![tactic(auto)]

mod keep;
mod rounds;

pub use rounds::narrow;
