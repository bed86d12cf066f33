// Trying a state may call for a fork, and a fork tries two states (document 01, step 5).
ghost use Rattle.std.specs.Prelude.{◌<◌, length};
ghost use Rattle.formula.specs.Formula.{clauses};
ghost use Rattle.walk_propagation.specs.Looked.{pending};
ghost use Rattle.walk_propagation.specs.Searching.{Searching};
ghost use Rattle.walk_unit_queue.specs.Theorems.{Covers};
ghost use Rattle.walk.specs.Promises.{Branches};
ghost use Rattle.walk.specs.Walk.{fork as fork_of, walk_from};
ghost use Rattle.walk_witnesses.specs.Witnesses.{Witnesses};
ghost use Rattle.search_state.specs.Newest.{newest, before};
ghost use Rattle.walk_unit_queue.specs.Due.{NoneDue};
ghost use Rattle.search_state.specs.Ready.{Ready};
ghost use Rattle.search_state.specs.Tried.{TriedBy};

use search_state::{Tried, newest_of, unwind};
use walk_pick::Decision;
use walk_tally::Tally;

// The walk from a state in which only clauses of the newest variable can ask for anything. Where it finds
// an answer, that is what the lent assignment holds at the end; else it is the state before that variable.
#[cycle(attempt_fork)]
pub fn attempt(
    rules: &[i32],
    arrangement: &[u16],
    row: &[u8],
    d: usize,
    tally: Tally,
    a: &mut [u8],
    trail: &mut [u16],
    witnesses: &mut [u16],
    weights: &mut [u64],
) -> Tried
    requires searching { Searching (length a.old) row.now a.old trail.old tally.settled tally.broken }
    requires ready { Ready rules.now arrangement.now witnesses.old (length a.old) (length weights.old) }
    requires covers { Covers (clauses rules.now) (pending (newest tally) tally a.old trail.old) }
    ensures tried { TriedBy (walk_from (clauses rules.now) row.now d a.old) (newest tally) (before tally a.old trail.old) trail.old trail.new a.new result }
    ensures witness { Witnesses rules.now witnesses.new }
{
    let from = newest_of(tally.settled);
    let nothing = Tried {
        found: None,
        forks: 0,
    };
    match walk_propagation::propagate_units(rules, arrangement, row, d, from, tally, a, trail) {
        Err(dead) => unwind(nothing, from, dead.tally.settled, trail, a),
        Ok(t) => {
            if walk_completion::completes(rules, row, a) {
                walk_completion::fill_completion(row, a);
                return Tried {
                    found: Some(t.broken),
                    forks: 0,
                };
            }
            match walk_pick::pick_branch(
                rules,
                arrangement,
                row,
                d,
                t.broken,
                a,
                witnesses,
                weights,
            ) {
                None => unwind(nothing, from, t.settled, trail, a),
                Some(decision) => {
                    let tried = fork(
                        rules,
                        arrangement,
                        row,
                        d,
                        t,
                        decision,
                        a,
                        trail,
                        witnesses,
                        weights,
                    );
                    unwind(tried, from, t.settled, trail, a)
                }
            }
        }
    }
}

// Tries the branching variable at one value, and where that finds nothing at the other. Where neither
// does, the state is as it was.
#[cycle(attempt_fork)]
fn fork(
    rules: &[i32],
    arrangement: &[u16],
    row: &[u8],
    d: usize,
    tally: Tally,
    decision: Decision,
    a: &mut [u8],
    trail: &mut [u16],
    witnesses: &mut [u16],
    weights: &mut [u64],
) -> Tried
    requires searching { Searching (length a.old) row.now a.old trail.old tally.settled tally.broken }
    requires ready { Ready rules.now arrangement.now witnesses.old (length a.old) (length weights.old) }
    requires branches { Branches a.old (length a.old) decision.variable.0 × (decision.value < 2) × NoneDue (clauses rules.now) a.old }
    ensures tried { TriedBy (fork_of (walk_from (clauses rules.now) row.now d) a.old decision.variable.0 decision.value) tally.settled a.old trail.old trail.new a.new result }
    ensures witness { Witnesses rules.now witnesses.new }
{
    let v = decision.variable;
    let value = decision.value;
    let first = walk_propagation::assign_to(tally, row, v, value, a, trail);
    let tried = attempt(
        rules,
        arrangement,
        row,
        d,
        first,
        a,
        trail,
        witnesses,
        weights,
    );
    if tried.found.is_some() {
        return search_state::with_forks(0, tried);
    }
    let second = walk_propagation::assign_to(tally, row, v, 1 - value, a, trail);
    search_state::with_forks(
        tried.forks,
        attempt(
            rules,
            arrangement,
            row,
            d,
            second,
            a,
            trail,
            witnesses,
            weights,
        ),
    )
}
