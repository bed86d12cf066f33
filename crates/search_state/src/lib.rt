// The state of a search: the tables that it works in and what is prepared in them, what a try comes to, and the
// way back from one that found nothing.
#![tactic(auto)]

mod copying;
mod preparing;
mod result;
mod root;
mod unwinding;

pub use copying::copy_to;
pub use preparing::prepare;
pub use result::{Tried, add_forks, answer_of, with_forks};
pub use root::settle_root;
pub use unwinding::{newest_of, unwind};
