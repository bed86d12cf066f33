// Unit propagation where no dead end can be.
ghost use Rattle.std.specs.Prelude.{◌≡◌, false, ◌≤◌, length, replicate};
ghost use Rattle.formula.specs.Formula.{clauses};
ghost use Rattle.limits.specs.Limits.{max_variables};
ghost use Rattle.walk_occurrences.specs.Table.{Beside};
ghost use Rattle.walk_propagation.specs.Looked.{pending};
ghost use Rattle.walk_propagation.specs.Looking.{Following};
ghost use Rattle.walk_propagation.specs.Searching.{Searching};
ghost use Rattle.rule_list.specs.Sound.{SoundList};
ghost use Rattle.search_state.specs.Newest.{newest};
ghost use Rattle.walk_unit_queue.specs.Theorems.{Covers};
ghost use Rattle.walk.specs.Propagation.{propagate};
ghost use Rattle.walk.specs.Walk.{is_dead_end};

use walk_tally::Tally;

// Propagates a state that some model within the limit extends, and in which only clauses of the newest
// variable can ask for anything.
pub fn settle(
    rules: &[i32],
    arrangement: &[u16],
    row: &[u8],
    d: usize,
    tally: Tally,
    a: &mut [u8],
    trail: &mut [u16],
) -> Tally
    requires following { Following rules.now arrangement.now row.now tally a.old trail.old × Covers (clauses rules.now) (pending (newest tally) tally a.old trail.old) }
    requires a_value { is_dead_end (clauses rules.now) row.now d (propagate (clauses rules.now) a.old) ≡ false }
    ensures { (a.new ≡ propagate (clauses rules.now) a.old) × Searching (length a.old) row.now a.new trail.new result.settled result.broken }
{
    let from = search_state::newest_of(tally.settled);
    match walk_propagation::propagate_units(rules, arrangement, row, d, from, tally, a, trail) {
        Ok(t) => t,
        Err(dead) => dead.tally,
    }
}

// The same from the root, in lent space, whatever that holds.
pub fn settle_first(
    rules: &[i32],
    arrangement: &[u16],
    row: &[u8],
    d: usize,
    a: &mut [u8],
    trail: &mut [u16],
) -> Tally
    requires a_len_bound { (length a.old ≤ max_variables) × SoundList (length a.old) rules.now × Beside (length a.old) rules.now arrangement.now × (length trail.old ≡ length a.old) }
    requires a_value { is_dead_end (clauses rules.now) row.now d (propagate (clauses rules.now) (replicate (length a.old) 2)) ≡ false }
    ensures { (a.new ≡ propagate (clauses rules.now) (replicate (length a.old) 2)) × Searching (length a.old) row.now a.new trail.new result.settled result.broken }
{
    match search_state::settle_root(rules, arrangement, row, d, a, trail) {
        Ok(t) => t,
        Err(dead) => dead.tally,
    }
}
