// Unit propagation (document 01, step 1: settle).
ghost use Rattle.std.specs.Prelude.{◌≤◌, length};
ghost use Rattle.formula.specs.Formula.{clauses};
ghost use Rattle.walk_unit_queue.specs.Queue.{follow, settle};
ghost use Rattle.walk_propagation.specs.Looked.{ComesTo, pending};
ghost use Rattle.walk_propagation.specs.Looking.{Following};

use crate::look::look_at_all;
use crate::propagated::DeadEnd;
use crate::queue::follow_queue;
use walk_tally::Tally;

// Propagates a state in which only the clauses of variables from a place of the trail on can ask for
// anything, as after a fork. It stops at the first sign of a dead end, since what follows cannot mend it.
pub fn propagate_units(
    rules: &[i32],
    arrangement: &[u16],
    row: &[u8],
    d: usize,
    from: usize,
    tally: Tally,
    a: &mut [u8],
    trail: &mut [u16],
) -> Result<Tally, DeadEnd>
    requires { Following rules.now arrangement.now row.now tally a.old trail.old × (from ≤ tally.settled) }
    ensures { ComesTo (length a.old) row.now (follow (clauses rules.now) row.now d (pending from tally a.old trail.old)) tally a.old trail.old a.new trail.new result }
{
    if d < tally.broken {
        return Err(DeadEnd { tally: tally });
    }
    follow_queue(rules, arrangement, row, d, from, tally, a, trail)
}

// Propagates any state: each clause is looked at once, and then the queue is followed.
pub fn propagate_all(
    rules: &[i32],
    arrangement: &[u16],
    row: &[u8],
    d: usize,
    tally: Tally,
    a: &mut [u8],
    trail: &mut [u16],
) -> Result<Tally, DeadEnd>
    requires { Following rules.now arrangement.now row.now tally a.old trail.old }
    ensures { ComesTo (length a.old) row.now (settle (clauses rules.now) row.now d a.old) tally a.old trail.old a.new trail.new result }
{
    if d < tally.broken {
        return Err(DeadEnd { tally: tally });
    }
    let numbers = walk_occurrences::every_clause(arrangement);
    let looked = look_at_all(rules, arrangement, numbers, row, d, tally, a, trail)?;
    follow_queue(rules, arrangement, row, d, tally.settled, looked, a, trail)
}
