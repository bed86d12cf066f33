// The text of test programs: the lines of their input, the values and lists in a line, and what they write:
// a refusal, and what a lent buffer holds.
#![tactic(auto)]

mod buffer;
mod input;
mod report;
mod values;

pub use buffer::{Element, held, sum};
pub use input::read_full;
pub use report::Refused;
pub use values::Values;

/// The longest list: more than the entries and closing zeros of the largest sound one.
pub const LONGEST_LIST: usize = 40960;

/// The longest file: more than the largest sound one.
pub const LONGEST_FILE: usize = 262144;

/// The longest row or choice.
pub const LONGEST_ROW: usize = 1024;
