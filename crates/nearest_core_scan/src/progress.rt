// What is at hand on the way through the wishes.
use walk_tally::Tally;

// The tally of the values, how many wishes are assumed, and how much is broken at least.
#[derive(Clone, Copy)]
pub struct Progress {
    pub tally: Tally,
    pub assumed: usize,
    pub bound: usize,
}
