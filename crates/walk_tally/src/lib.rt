// Document 01, step 1 of the wish search: "a running tally of settled settings and broken wishes is
// updated by each settling". It is lent by `&mut` and changed where a variable is assigned.
#![tactic(auto)]

ghost use Rattle.walk_tally.specs.Assigning.{MayAssign, HasAssigned};

// How many variables are assigned (settled), and how many wishes are broken.
#[derive(Clone, Copy)]
pub struct Tally {
    pub settled: usize,
    pub broken: usize,
}

// Assigns the variable at a place: its value goes to the assignment, and the running tally counts it,
// at a cost in broken wishes.
pub fn assign(tally: &mut Tally, at: usize, bit: u8, cost: usize, a: &mut [u8])
    requires { MayAssign at cost a.old tally.old }
    ensures { HasAssigned at bit cost a.old tally.old a.new tally.new }
{
    a[at] = bit;
    tally.settled += 1;
    tally.broken += cost;
}
