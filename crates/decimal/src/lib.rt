// Decimal numbers: their digits, and reading them from bytes.
#![tactic(auto)]

mod read;

pub use read::{FIRST_DIGIT, LAST_DIGIT, number_of};
