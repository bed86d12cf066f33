// The lines of an OPB file that have the rules: counted, and put into bytes that have room for them.
#![tactic(auto)]

mod count;
mod put;

pub use count::rules_length;
pub use put::put_rules;
