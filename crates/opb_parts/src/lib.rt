// The parts of an OPB file's lines, counted and put into bytes that have room for them.
#![tactic(auto)]

mod bound;
mod header;
mod term;

pub use bound::{bound_length, put_bound};
pub use header::{header_length, put_header};
pub use term::{put_term, term_length};
