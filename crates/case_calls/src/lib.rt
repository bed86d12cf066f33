// The calls on the values of a case, with what they answer written. A call is in the module of what it
// writes into the buffer that it is lent.
#![tactic(auto)]

pub mod bytes_case;
pub mod call;
mod forks_case;
mod lent;
pub mod nothing_case;
pub mod numbers_case;
mod search_case;
mod show;

pub use lent::Lent;
