// A variable is assigned, with its place in the trail and its part in the running tally.
ghost use Rattle.std.specs.Prelude.{◌^◌, ◌≤◌, ◌<◌, length};
ghost use Rattle.limits.specs.Limits.{max_variables};
ghost use Rattle.walk_propagation.specs.Assigned.{AssignedTo};

use literal::Variable;
use walk_tally::Tally;

// Assigns a variable, at what its wish makes it cost, and gives the tally with it. What it asks of the
// tally is that the trail has room and no count runs over.
pub fn assign_to(
    tally: Tally,
    row: &[u8],
    v: Variable,
    bit: u8,
    a: &mut [u8],
    trail: &mut [u16],
) -> Tally
    requires v_nonzero { (0 < v.0) × (v.0 ≤ length a.old) × (v.0 ≤ max_variables) }
    requires settled_in_bounds { (tally.settled < length trail.old) × (tally.settled < max_variables) × (tally.broken < 2 ^ 32) }
    ensures { AssignedTo row.now v.0 bit tally a.old trail.old result a.new trail.new }
{
    let number = v.0;
    let at = number - 1;
    let place = tally.settled;
    let cost = wish::cost_of(literal::value_of(v, row), bit);
    trail[place] = number as u16;
    let mut counted = tally;
    walk_tally::assign(&mut counted, at, bit, cost, a);
    counted
}
