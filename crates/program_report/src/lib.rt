// What a program prints, in bytes that its caller lends. A text goes there whole or not at all, and
// its length is told either way.
#![tactic(auto)]

mod fitted;
mod line;

pub use fitted::put_text;
pub use line::put_refusal;
