// The root of a search: every variable unassigned, and unit propagation from there.
ghost use Rattle.std.specs.Prelude.{◌≡◌, ◌≤◌, length};
ghost use Rattle.formula.specs.Formula.{clauses};
ghost use Rattle.limits.specs.Limits.{max_variables};
ghost use Rattle.walk_occurrences.specs.Table.{Beside};
ghost use Rattle.rule_list.specs.Sound.{SoundList};
ghost use Rattle.search_state.specs.Root.{SettledRoot};

use walk_propagation::DeadEnd;
use walk_tally::Tally;

// Settles the root in lent space, whatever that holds.
pub fn settle_root(
    rules: &[i32],
    arrangement: &[u16],
    row: &[u8],
    d: usize,
    a: &mut [u8],
    trail: &mut [u16],
) -> Result<Tally, DeadEnd>
    requires { (length a.old ≤ max_variables) × SoundList (length a.old) rules.now × Beside (length a.old) rules.now arrangement.now × (length trail.old ≡ length a.old) }
    ensures { SettledRoot (length a.old) (clauses rules.now) row.now d trail.old a.new trail.new result }
{
    // every variable unassigned
    a.fill(2);
    let root = Tally {
        settled: 0,
        broken: 0,
    };
    walk_propagation::propagate_all(rules, arrangement, row, d, root, a, trail)
}
