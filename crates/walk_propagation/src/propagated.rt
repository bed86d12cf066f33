// What propagation comes to where it is not the propagated state.
use walk_tally::Tally;

// A dead end, with the tally of what is assigned then, for whoever undoes it.
#[derive(Clone, Copy)]
pub struct DeadEnd {
    pub tally: Tally,
}
