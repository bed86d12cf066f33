// The last line of an OPB file, which has the wishes: counted, and put into bytes that have room for it.
#![tactic(auto)]

mod count;
mod put;

pub use count::wishes_length;
pub use put::put_wishes;
