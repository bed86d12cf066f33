// The rule list in memory: whether it is sound, and how many clauses and literals it has.
#![tactic(auto)]

mod scan;
mod stamps;

pub use scan::{ListSize, scan_rules};
pub use stamps::{is_repeat, no_stamps, stamp};
