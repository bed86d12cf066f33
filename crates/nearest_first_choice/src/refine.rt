// All variables, from 1 upward.
ghost use Rattle.std.specs.Prelude.{◌≡◌, ◌≤◌, length, take, None};
ghost use Rattle.choices.specs.Choices.{Model};
ghost use Rattle.choices.specs.Order.{FirstWithin};
ghost use Rattle.distance.specs.Distance.{disagreement, first_within};
ghost use Rattle.formula.specs.Formula.{clauses};
ghost use Rattle.search_state.specs.Ready.{Ready};
ghost use Rattle.search_meaning.specs.Searches.{with_broken, choice_after};

use crate::fix::fix;
use crate::settle::settle_first;

// A choice begins with a model within the limit d; the first such model takes its place. The other space
// that is lent may hold anything but for the witnesses.
pub fn make_first(
    rules: &[i32],
    arrangement: &[u16],
    row: &[u8],
    d: usize,
    a: &mut [u8],
    trail: &mut [u16],
    witnesses: &mut [u16],
    weights: &mut [u64],
    choice: &mut [u8],
)
    requires trail_len { (length trail.old ≡ length a.old) × Ready rules.now arrangement.now witnesses.old (length a.old) (length weights.old) }
    requires a_in_bounds { (length a.old ≤ length choice.old) × Model (length a.old) (clauses rules.now) (take (length a.old) choice.old) × (disagreement row.now (take (length a.old) choice.old) ≤ d) }
    ensures { choice.new ≡ choice_after None (with_broken row.now (first_within (length a.old) rules.now row.now d)) (length a.old) choice.old }
{
    let n = a.len();
    refine(
        rules,
        arrangement,
        row,
        d,
        a,
        trail,
        witnesses,
        weights,
        &mut choice[..n],
    );
}

// Of a choice with just the bytes of the model.
fn refine(
    rules: &[i32],
    arrangement: &[u16],
    row: &[u8],
    d: usize,
    a: &mut [u8],
    trail: &mut [u16],
    witnesses: &mut [u16],
    weights: &mut [u64],
    choice: &mut [u8],
)
    requires trail_len { (length trail.old ≡ length a.old) × Ready rules.now arrangement.now witnesses.old (length a.old) (length weights.old) }
    requires model { Model (length a.old) (clauses rules.now) choice.old × (disagreement row.now choice.old ≤ d) }
    ensures { FirstWithin (length a.old) (clauses rules.now) row.now d choice.new }
{
    let mut tally = settle_first(rules, arrangement, row, d, a, trail);
    for i in 0..a.len() {
        tally = fix(
            rules,
            arrangement,
            row,
            d,
            tally,
            i,
            a,
            trail,
            witnesses,
            weights,
            choice,
        );
    }
}
