// Unit propagation by occurrence lists, and its undoing.
#![tactic(auto)]

mod assign;
mod look;
mod propagate;
mod propagated;
mod queue;
mod trail;
mod unit;

pub use assign::assign_to;
pub use propagate::{propagate_all, propagate_units};
pub use propagated::DeadEnd;
pub use trail::undo;
