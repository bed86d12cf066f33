// The weights of the open clauses, literal by literal, and the candidates to branch on.
#![tactic(auto)]

mod add;
mod clause;
mod list;
mod mark;

pub use list::weigh_list;
