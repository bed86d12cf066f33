// The walk from its root: every variable unassigned.
#![tactic(auto)]

mod into;

ghost use Rattle.std.specs.Prelude.{◌≡◌, length};
ghost use Rattle.formula.specs.Formula.{clauses};
ghost use Rattle.walk.specs.Walk.{walk};
ghost use Rattle.walk_witnesses.specs.Witnesses.{Witnesses};
ghost use Rattle.search_state.specs.Ready.{Ready};
ghost use Rattle.search_state.specs.Tried.{RootSays};

pub use into::walk_into;
use search_state::Tried;

// Walks from the root in lent space, whatever that holds but for the witnesses.
pub fn walk_from_root(
    rules: &[i32],
    arrangement: &[u16],
    row: &[u8],
    d: usize,
    a: &mut [u8],
    trail: &mut [u16],
    witnesses: &mut [u16],
    weights: &mut [u64],
) -> Tried
    requires { (length trail.old ≡ length a.old) × Ready rules.now arrangement.now witnesses.old (length a.old) (length weights.old) }
    ensures root { RootSays (walk (length a.old) (clauses rules.now) row.now d) a.new result }
    ensures witness { Witnesses rules.now witnesses.new }
{
    let Ok(settled) = search_state::settle_root(rules, arrangement, row, d, a, trail) else {
        return Tried {
            found: None,
            forks: 0,
        };
    };
    walk_try_and_fork::attempt(
        rules,
        arrangement,
        row,
        d,
        settled,
        a,
        trail,
        witnesses,
        weights,
    )
}
