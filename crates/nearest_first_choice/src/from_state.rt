// A search from a state in which propagation has nothing to do, with one more variable off.
ghost use Rattle.std.specs.Prelude.{length};
ghost use Rattle.choices.specs.Choices.{Choice};
ghost use Rattle.nearest_cores.specs.Search.{search_from};
ghost use Rattle.formula.specs.Formula.{clauses};
ghost use Rattle.walk_propagation.specs.Searching.{Searching};
ghost use Rattle.search_state.specs.Ready.{Ready};
ghost use Rattle.search_state.specs.Tried.{RootSays};
ghost use Rattle.walk_unit_queue.specs.Due.{NoneDue};
ghost use Rattle.walk.specs.Promises.{Branches};
ghost use Rattle.walk.specs.State.{assign};
ghost use Rattle.walk_witnesses.specs.Witnesses.{Witnesses};
ghost use Rattle.nearest_first_choice.specs.Refining.{Decided};

use literal::Variable;
use search_state::Tried;
use walk_tally::Tally;

// The variable's value in the first choice: off where the search finds an answer, which is then the
// choice at hand. The one at hand before guides the search. It goes in a copy, so that the state stays.
pub fn value_by_search(
    rules: &[i32],
    arrangement: &[u16],
    row: &[u8],
    d: usize,
    tally: Tally,
    v: Variable,
    a: &[u8],
    trail: &[u16],
    witnesses: &mut [u16],
    weights: &mut [u64],
    choice: &mut [u8],
) -> u8
    requires searching { Searching (length a.now) row.now a.now trail.now tally.settled tally.broken × Branches a.now (length a.now) v.0 × NoneDue (clauses rules.now) a.now }
    requires ready { Ready rules.now arrangement.now witnesses.old (length a.now) (length weights.old) × Choice (length a.now) choice.old }
    ensures decided { Decided (length a.now) (clauses rules.now) row.now d a.now v.0 choice.old choice.new result }
    ensures witness { Witnesses rules.now witnesses.new }
{
    let n = a.len();
    let mut guide_room = [0u8; limits::MAX_VARIABLES];
    let mut values_room = [0u8; limits::MAX_VARIABLES];
    let mut trace_room = [0u16; limits::MAX_VARIABLES];
    let guide = &mut guide_room[..n];
    let values = &mut values_room[..n];
    let trace = &mut trace_room[..n];
    nearest_guide::write_guide(row, choice, guide);
    values.copy_from_slice(a);
    trace.copy_from_slice(trail);
    match search_off(
        rules,
        arrangement,
        row,
        guide,
        d,
        tally,
        v,
        values,
        trace,
        witnesses,
        weights,
    )
    .found
    {
        Some(_) => {
            choice.copy_from_slice(values);
            0
        }
        None => 1,
    }
}

// Assigns the variable off, and searches from there. An answer is what the assignment holds then.
fn search_off(
    rules: &[i32],
    arrangement: &[u16],
    row: &[u8],
    guide: &[u8],
    d: usize,
    tally: Tally,
    v: Variable,
    a: &mut [u8],
    trail: &mut [u16],
    witnesses: &mut [u16],
    weights: &mut [u64],
) -> Tried
    requires searching { Searching (length a.old) row.now a.old trail.old tally.settled tally.broken × Branches a.old (length a.old) v.0 × NoneDue (clauses rules.now) a.old }
    requires ready { Ready rules.now arrangement.now witnesses.old (length a.old) (length weights.old) }
    ensures found { RootSays (search_from (clauses rules.now) row.now guide.now d (assign a.old v.0 0)) a.new result }
    ensures witness { Witnesses rules.now witnesses.new }
{
    let from = tally.settled;
    let off = walk_propagation::assign_to(tally, row, v, 0, a, trail);
    nearest_core_search::attempt(
        rules,
        arrangement,
        row,
        guide,
        d,
        from,
        off,
        a,
        trail,
        witnesses,
        weights,
    )
}
