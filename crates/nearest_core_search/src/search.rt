// Trying a state may call for a fork, and a fork tries two states, as in document 01's walk (step 5); but a state
// is narrowed before it is completed or forked.
ghost use Rattle.std.specs.Prelude.{◌≤◌, ◌<◌, length};
ghost use Rattle.formula.specs.Formula.{clauses};
ghost use Rattle.walk_propagation.specs.Looked.{pending};
ghost use Rattle.walk_propagation.specs.Searching.{Searching};
ghost use Rattle.walk_unit_queue.specs.Theorems.{Covers};
ghost use Rattle.walk.specs.Promises.{Branches};
ghost use Rattle.walk.specs.Walk.{fork as fork_of};
ghost use Rattle.nearest_cores.specs.Search.{search_from};
ghost use Rattle.walk_witnesses.specs.Witnesses.{Witnesses};
ghost use Rattle.walk_unit_queue.specs.Due.{NoneDue};
ghost use Rattle.search_state.specs.Ready.{Ready};
ghost use Rattle.search_state.specs.Tried.{TriedBy};
ghost use Rattle.walk_propagation.specs.Trail.{undone};
ghost use Rattle.std.proofs.Math.Seq.{slice};

use search_state::Tried;
use walk_pick::Decision;
use walk_tally::Tally;

// The search from a state in which only clauses of the variables from a place of the trail on can ask for
// anything. Where it finds an answer, that is what the lent assignment holds at the end; else it is the state
// without those variables.
#[cycle(attempt_fork)]
pub fn attempt(
    rules: &[i32],
    arrangement: &[u16],
    row: &[u8],
    guide: &[u8],
    d: usize,
    from: usize,
    tally: Tally,
    a: &mut [u8],
    trail: &mut [u16],
    witnesses: &mut [u16],
    weights: &mut [u64],
) -> Tried
    requires searching { Searching (length a.old) row.now a.old trail.old tally.settled tally.broken }
    requires ready { Ready rules.now arrangement.now witnesses.old (length a.old) (length weights.old) }
    requires from_le_settled { (from ≤ tally.settled) × Covers (clauses rules.now) (pending from tally a.old trail.old) }
    ensures tried { TriedBy (search_from (clauses rules.now) row.now guide.now d a.old) from (undone (slice from tally.settled trail.old) a.old) trail.old trail.new a.new result }
    ensures witness { Witnesses rules.now witnesses.new }
{
    let nothing = Tried {
        found: None,
        forks: 0,
    };
    match nearest_narrowing::narrow(rules, arrangement, row, d, from, tally, a, trail) {
        Err(dead) => search_state::unwind(nothing, from, dead.tally.settled, trail, a),
        Ok(t) => {
            if walk_completion::completes(rules, guide, a) {
                walk_completion::fill_completion(guide, a);
                return Tried {
                    found: Some(t.broken),
                    forks: 0,
                };
            }
            match walk_pick::pick_branch(
                rules,
                arrangement,
                row,
                d,
                t.broken,
                a,
                witnesses,
                weights,
            ) {
                None => search_state::unwind(nothing, from, t.settled, trail, a),
                Some(decision) => {
                    let tried = fork(
                        rules,
                        arrangement,
                        row,
                        guide,
                        d,
                        t,
                        decision,
                        a,
                        trail,
                        witnesses,
                        weights,
                    );
                    search_state::unwind(tried, from, t.settled, trail, a)
                }
            }
        }
    }
}

// Tries the branching variable at one value, and where that finds nothing at the other. Where neither
// does, the state is as it was.
#[cycle(attempt_fork)]
fn fork(
    rules: &[i32],
    arrangement: &[u16],
    row: &[u8],
    guide: &[u8],
    d: usize,
    tally: Tally,
    decision: Decision,
    a: &mut [u8],
    trail: &mut [u16],
    witnesses: &mut [u16],
    weights: &mut [u64],
) -> Tried
    requires searching { Searching (length a.old) row.now a.old trail.old tally.settled tally.broken }
    requires ready { Ready rules.now arrangement.now witnesses.old (length a.old) (length weights.old) }
    requires branches { Branches a.old (length a.old) decision.variable.0 × (decision.value < 2) × NoneDue (clauses rules.now) a.old }
    ensures tried { TriedBy (fork_of (search_from (clauses rules.now) row.now guide.now d) a.old decision.variable.0 decision.value) tally.settled a.old trail.old trail.new a.new result }
    ensures witness { Witnesses rules.now witnesses.new }
{
    let v = decision.variable;
    let value = decision.value;
    let first = walk_propagation::assign_to(tally, row, v, value, a, trail);
    let tried = attempt(
        rules,
        arrangement,
        row,
        guide,
        d,
        tally.settled,
        first,
        a,
        trail,
        witnesses,
        weights,
    );
    if tried.found.is_some() {
        return search_state::with_forks(0, tried);
    }
    let second = walk_propagation::assign_to(tally, row, v, 1 - value, a, trail);
    search_state::with_forks(
        tried.forks,
        attempt(
            rules,
            arrangement,
            row,
            guide,
            d,
            tally.settled,
            second,
            a,
            trail,
            witnesses,
            weights,
        ),
    )
}
