// The completion of an assignment: unassigned variables take their wish, unwished ones off.
#![tactic(auto)]

mod byte;
mod fill;
mod model;

pub use byte::{complete_byte, completed_value};
pub use fill::fill_completion;
pub use model::completes;
