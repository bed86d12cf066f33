// One variable after the other takes the value that it has in the first choice.
ghost use Rattle.std.specs.Prelude.{◌≡◌, ◌+◌, ◌<◌, length};
ghost use Rattle.formula.specs.Formula.{clauses};
ghost use Rattle.literal.specs.Literal.{value};
ghost use Rattle.search_state.specs.Ready.{Ready};
ghost use Rattle.walk.specs.State.{assign};
ghost use Rattle.walk_witnesses.specs.Witnesses.{Witnesses};
ghost use Rattle.nearest_first_choice.specs.Fixing.{Fixing};
ghost use Rattle.nearest_first_choice.specs.Refining.{Refining};

use crate::from_state::value_by_search;
use crate::settle::settle;
use literal::Variable;
use walk_tally::Tally;

// Fixes the variable after the first i, and what follows from it. One that propagation has fixed is left
// as it is.
pub fn fix(
    rules: &[i32],
    arrangement: &[u16],
    row: &[u8],
    d: usize,
    tally: Tally,
    i: usize,
    a: &mut [u8],
    trail: &mut [u16],
    witnesses: &mut [u16],
    weights: &mut [u64],
    choice: &mut [u8],
) -> Tally
    requires fixing { Fixing rules.now row.now d i tally a.old trail.old choice.old × (i < length a.old) }
    requires ready { Ready rules.now arrangement.now witnesses.old (length a.old) (length weights.old) }
    ensures fixed { Fixing rules.now row.now d (i + 1) result a.new trail.new choice.new }
    ensures witness { Witnesses rules.now witnesses.new }
{
    let v = Variable(i + 1);
    if literal::value_of(v, a) != 2 {
        return tally;
    }
    let bit = first_value(
        rules,
        arrangement,
        row,
        d,
        tally,
        i,
        a,
        trail,
        witnesses,
        weights,
        choice,
    );
    let with = walk_propagation::assign_to(tally, row, v, bit, a, trail);
    settle(rules, arrangement, row, d, with, a, trail)
}

// Its value: off where the choice at hand has it off, or where a search finds a choice that has, which is
// then at hand; else on.
fn first_value(
    rules: &[i32],
    arrangement: &[u16],
    row: &[u8],
    d: usize,
    tally: Tally,
    i: usize,
    a: &[u8],
    trail: &[u16],
    witnesses: &mut [u16],
    weights: &mut [u64],
    choice: &mut [u8],
) -> u8
    requires fixing { Fixing rules.now row.now d i tally a.now trail.now choice.old × (i < length a.now) × (value a.now (i + 1) ≡ 2) }
    requires ready { Ready rules.now arrangement.now witnesses.old (length a.now) (length weights.old) }
    ensures refined { (result < 2) × Refining (length a.now) (clauses rules.now) row.now d (i + 1) (assign a.now (i + 1) result) choice.new }
    ensures witness { Witnesses rules.now witnesses.new }
{
    let v = Variable(i + 1);
    if literal::value_of(v, choice) == 0 {
        return 0;
    }
    value_by_search(
        rules,
        arrangement,
        row,
        d,
        tally,
        v,
        a,
        trail,
        witnesses,
        weights,
        choice,
    )
}
