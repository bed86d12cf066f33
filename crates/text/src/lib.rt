// Text put into lent bytes that have room for it. Each function that puts gives the place past what
// it put, so that the next one goes on there.
#![tactic(auto)]

mod bytes;
mod column;
mod number;
mod signed;

pub use bytes::{put_byte, put_bytes};
pub use column::put_column;
pub use number::{number_length, put_number};
pub use signed::{put_signed, signed_length};
