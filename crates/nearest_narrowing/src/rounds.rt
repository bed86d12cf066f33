// The rounds of narrowing.
ghost use Rattle.std.specs.Prelude.{◌≤◌, length};
ghost use Rattle.formula.specs.Formula.{clauses};
ghost use Rattle.walk_propagation.specs.Looked.{ComesTo, pending};
ghost use Rattle.walk_propagation.specs.Looking.{Following};
ghost use Rattle.walk_unit_queue.specs.Theorems.{Covers};
ghost use Rattle.nearest_cores.specs.Narrow.{narrow as narrow_of};
ghost use Rattle.nearest_narrowing.specs.Rounds.{RoundBy};

use crate::keep::keep_wishes;
use walk_propagation::DeadEnd;
use walk_tally::Tally;

// What a round comes to that is no dead end: the narrowed state, or one with wishes kept, which stand on the trail
// from a place on.
#[derive(Clone, Copy)]
enum Round {
    Narrowed(Tally),
    Kept(usize, Tally),
}

// One round: unit propagation, the cores, and the wishes that must be kept.
fn narrow_round(
    rules: &[i32],
    arrangement: &[u16],
    row: &[u8],
    d: usize,
    from: usize,
    tally: Tally,
    a: &mut [u8],
    trail: &mut [u16],
) -> Result<Round, DeadEnd>
    requires { Following rules.now arrangement.now row.now tally a.old trail.old × (from ≤ tally.settled) × Covers (clauses rules.now) (pending from tally a.old trail.old) }
    ensures { RoundBy (length a.old) (clauses rules.now) row.now d tally a.old trail.old a.new trail.new result }
{
    let t = walk_propagation::propagate_units(rules, arrangement, row, d, from, tally, a, trail)?;
    let mut marks = [0u8; limits::MAX_VARIABLES];
    let mut assumed = [0u16; limits::MAX_VARIABLES + 1];
    let taken = &mut marks[..a.len()];
    let bound = nearest_core_scan::find_cores(
        rules,
        arrangement,
        row,
        t,
        a,
        trail,
        taken,
        &mut assumed,
    );
    if d < bound {
        return Err(DeadEnd { tally: t });
    }
    let kept = keep_wishes(row, d, taken, bound, t, a, trail);
    if kept.settled == t.settled {
        return Ok(Round::Narrowed(kept));
    }
    Ok(Round::Kept(t.settled, kept))
}

// Narrows a state in which only clauses of the variables from a place of the trail on can ask for anything, round by
// round.
fn narrow_on(
    rules: &[i32],
    arrangement: &[u16],
    row: &[u8],
    d: usize,
    from: usize,
    tally: Tally,
    a: &mut [u8],
    trail: &mut [u16],
) -> Result<Tally, DeadEnd>
    requires { Following rules.now arrangement.now row.now tally a.old trail.old × (from ≤ tally.settled) × Covers (clauses rules.now) (pending from tally a.old trail.old) }
    ensures { ComesTo (length a.old) row.now (narrow_of (clauses rules.now) row.now d a.old) tally a.old trail.old a.new trail.new result }
{
    let mut present = tally;
    let mut head = from;
    loop {
        match narrow_round(rules, arrangement, row, d, head, present, a, trail)? {
            Round::Narrowed(t) => return Ok(t),
            Round::Kept(place, t) => {
                head = place;
                present = t;
            }
        }
    }
}

// Narrows such a state. The first round stands apart from the others, so that a round is called at two places: its
// tables, some 2 KB, are then in a frame of its own, and not in the frame of each level of the search.
pub fn narrow(
    rules: &[i32],
    arrangement: &[u16],
    row: &[u8],
    d: usize,
    from: usize,
    tally: Tally,
    a: &mut [u8],
    trail: &mut [u16],
) -> Result<Tally, DeadEnd>
    requires { Following rules.now arrangement.now row.now tally a.old trail.old × (from ≤ tally.settled) × Covers (clauses rules.now) (pending from tally a.old trail.old) }
    ensures { ComesTo (length a.old) row.now (narrow_of (clauses rules.now) row.now d a.old) tally a.old trail.old a.new trail.new result }
{
    match narrow_round(rules, arrangement, row, d, from, tally, a, trail)? {
        Round::Narrowed(t) => Ok(t),
        Round::Kept(place, t) => narrow_on(rules, arrangement, row, d, place, t, a, trail),
    }
}
