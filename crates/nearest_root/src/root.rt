// The search from the root, in lent space.
ghost use Rattle.std.specs.Prelude.{◌≡◌, length};
ghost use Rattle.nearest_cores.specs.SearchRight.{Guides};
ghost use Rattle.formula.specs.Formula.{clauses};
ghost use Rattle.search_state.specs.Ready.{Ready};
ghost use Rattle.walk_witnesses.specs.Witnesses.{Witnesses};
ghost use Rattle.nearest_root.specs.Root.{RootRight};

use search_state::Tried;

// Searches from the root, whatever the lent space holds but for the witnesses.
pub fn search_from_root(
    rules: &[i32],
    arrangement: &[u16],
    row: &[u8],
    guide: &[u8],
    d: usize,
    a: &mut [u8],
    trail: &mut [u16],
    witnesses: &mut [u16],
    weights: &mut [u64],
) -> Tried
    requires trail_len { (length trail.old ≡ length a.old) × Ready rules.now arrangement.now witnesses.old (length a.old) (length weights.old) }
    requires guides { Guides (length a.old) row.now guide.now }
    ensures root { RootRight (length a.old) (clauses rules.now) row.now d a.new result }
    ensures witness { Witnesses rules.now witnesses.new }
{
    let Ok(t) = search_state::settle_root(rules, arrangement, row, d, a, trail) else {
        return Tried {
            found: None,
            forks: 0,
        };
    };
    nearest_core_search::attempt(
        rules,
        arrangement,
        row,
        guide,
        d,
        t.settled,
        t,
        a,
        trail,
        witnesses,
        weights,
    )
}
