// How much every model breaks at least, by the disjoint cores of the root.
ghost use Rattle.std.specs.Prelude.{◌≡◌, List, ℕ, ◌≤◌, length};
ghost use Rattle.choices.specs.Choices.{Model};
ghost use Rattle.distance.specs.Distance.{disagreement};
ghost use Rattle.formula.specs.Formula.{clauses};
ghost use Rattle.limits.specs.Limits.{max_variables};
ghost use Rattle.walk_occurrences.specs.Table.{Beside};
ghost use Rattle.rule_list.specs.Sound.{SoundList};

// Finds the bound in lent space, whatever that holds. Where unit propagation alone meets a falsified clause there
// is no model, and any bound will do.
pub fn root_bound(
    rules: &[i32],
    arrangement: &[u16],
    row: &[u8],
    a: &mut [u8],
    trail: &mut [u16],
) -> usize
    requires { (length a.old ≤ max_variables) × SoundList (length a.old) rules.now × Beside (length a.old) rules.now arrangement.now × (length trail.old ≡ length a.old) }
    ensures { (c : List ℕ) → Model (length a.old) (clauses rules.now) c → result ≤ disagreement row.now c }
{
    let no_limit = nearest_core_scan::NO_LIMIT;
    let Ok(t) = search_state::settle_root(rules, arrangement, row, no_limit, a, trail) else {
        return 0;
    };
    let mut marks = [0u8; limits::MAX_VARIABLES];
    let mut assumed = [0u16; limits::MAX_VARIABLES + 1];
    let taken = &mut marks[..a.len()];
    nearest_core_scan::find_cores(rules, arrangement, row, t, a, trail, taken, &mut assumed)
}
