// The first of the models within a limit (document 02, L5: off before on, compared from setting 1
// upward), from any of them.
#![tactic(auto)]

mod fix;
mod from_state;
mod refine;
mod settle;

pub use refine::make_first;
