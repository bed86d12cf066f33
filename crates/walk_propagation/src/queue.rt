// The queue of variables whose clauses are still to be looked at: the end of the trail.
ghost use Rattle.std.specs.Prelude.{◌≡◌, ◌+◌, ◌-◌, ◌*◌, ◌≤◌, ◌<◌, length};
ghost use Rattle.formula.specs.Formula.{clauses};
ghost use Rattle.literal.specs.Literal.{value};
ghost use Rattle.limits.specs.Limits.{max_variables};
ghost use Rattle.walk_unit_queue.specs.Queue.{drain};
ghost use Rattle.walk_propagation.specs.Looked.{ComesTo, pending};
ghost use Rattle.walk_occurrences.specs.Layout.{HasPart, part_at};
ghost use Rattle.walk_propagation.specs.Looking.{Following};

use crate::look::look_at_all;
use crate::propagated::DeadEnd;
use literal::Variable;
use walk_tally::Tally;

// The slot of the literal of an assigned variable that is false: of the one that asks it to be on, where
// it is off.
fn false_slot(v: Variable, a: &[u8]) -> usize
    requires { (0 < v.0) × (v.0 ≤ max_variables) × (value a.now v.0 < 2) }
    ensures { result ≡ 2 * v.0 + (1 - value a.now v.0) }
{
    let on = literal::value_of(v, a) == 0;
    literal::slot_of(literal::literal_of(v, on))
}

// The numbers of the clauses that hold it: the part of that slot.
fn false_part<'a>(v: Variable, a: &[u8], arrangement: &'a [u16]) -> &'a [u16]
    requires v_nonzero { (0 < v.0) × (v.0 ≤ length a.now) × (value a.now v.0 < 2) }
    requires a_len_bound { (length a.now ≤ max_variables) × HasPart arrangement.now (2 * v.0 + (1 - value a.now v.0)) }
    ensures { result.now ≡ part_at arrangement.now (2 * v.0 + (1 - value a.now v.0)) }
{
    walk_occurrences::part_of(arrangement, false_slot(v, a))
}

// Takes one variable after the other from the queue, which begins at a place of the trail, and looks at
// the clauses that hold its false literal.
pub fn follow_queue(
    rules: &[i32],
    arrangement: &[u16],
    row: &[u8],
    d: usize,
    from: usize,
    tally: Tally,
    a: &mut [u8],
    trail: &mut [u16],
) -> Result<Tally, DeadEnd>
    requires { Following rules.now arrangement.now row.now tally a.old trail.old × (from ≤ tally.settled) }
    ensures { ComesTo (length a.old) row.now (drain (clauses rules.now) row.now d (pending from tally a.old trail.old)) tally a.old trail.old a.new trail.new result }
{
    let mut present = tally;
    let mut head = from;
    while head < present.settled {
        let v = Variable(trail[head] as usize);
        let part = false_part(v, a, arrangement);
        present = look_at_all(rules, arrangement, part, row, d, present, a, trail)?;
        head += 1;
    }
    Ok(present)
}
