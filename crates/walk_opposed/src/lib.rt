// Opposed clauses: the open ones whose unassigned literals all go against wishes.
#![tactic(auto)]

mod clause;
mod fewest;
mod pair;
mod shortest;

pub use clause::is_opposed;
pub use fewest::fewest_opposed;
pub use pair::{shorter, unassigned_in};
