// The checks of what a call is lent: the causes 11 to 14 of document 01's table and 16 of document 02, a
// function for each. The rule list's is in crate `rule_list`.
#![tactic(auto)]

mod choice;
mod entries;
mod range;
mod row;
mod size;

pub use choice::scan_choice;
pub use entries::check_entries;
pub use range::check_range;
pub use row::{RowSize, scan_row};
pub use size::{check_length, check_size};
