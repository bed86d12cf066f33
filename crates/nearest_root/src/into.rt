// The search whose answer goes to a lent choice.
ghost use Rattle.std.specs.Prelude.{◌≡◌, ◌≤◌, length, take};
ghost use Rattle.choices.specs.Choices.{Model};
ghost use Rattle.formula.specs.Formula.{clauses};
ghost use Rattle.search_state.specs.Ready.{Ready};
ghost use Rattle.walk_witnesses.specs.Witnesses.{Witnesses};
ghost use Rattle.nearest_root.specs.Root.{FoundWithin};

use crate::root::search_from_root;

// A choice begins with a model, by which the search is guided. Where a model within the limit is found, it takes
// its place.
pub fn search_within(
    rules: &[i32],
    arrangement: &[u16],
    row: &[u8],
    d: usize,
    a: &mut [u8],
    trail: &mut [u16],
    witnesses: &mut [u16],
    weights: &mut [u64],
    choice: &mut [u8],
) -> bool
    requires trail_len { (length trail.old ≡ length a.old) × Ready rules.now arrangement.now witnesses.old (length a.old) (length weights.old) }
    requires a_in_bounds { (length a.old ≤ length choice.old) × Model (length a.old) (clauses rules.now) (take (length a.old) choice.old) }
    ensures found { FoundWithin (length a.old) (clauses rules.now) row.now d choice.old choice.new result }
    ensures witness { Witnesses rules.now witnesses.new }
{
    let mut bytes = [0u8; limits::MAX_VARIABLES];
    let guide = &mut bytes[..a.len()];
    nearest_guide::write_guide(row, choice, guide);
    let tried = search_from_root(
        rules,
        arrangement,
        row,
        guide,
        d,
        a,
        trail,
        witnesses,
        weights,
    );
    if tried.found.is_none() {
        return false;
    }
    search_state::copy_to(a, choice);
    true
}
