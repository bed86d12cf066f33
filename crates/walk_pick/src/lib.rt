// Where a state forks (document 01, steps 3 and 4).
#![tactic(auto)]

mod best;
mod score;

ghost use Rattle.std.specs.Prelude.{◌≡◌, ◌+◌, ◌*◌, ◌<◌, length};
ghost use Rattle.formula.specs.Formula.{clauses};
ghost use Rattle.distance.specs.Distance.{disagreement};
ghost use Rattle.rule_list.specs.Sound.{SoundList};
ghost use Rattle.walk_occurrences.specs.Layout.{begins_of};
ghost use Rattle.walk_occurrences.specs.Table.{Located};
ghost use Rattle.walk_witnesses.specs.Witnesses.{Witnesses};
ghost use Rattle.walk_opposed.specs.Opposed.{NoneShort};
ghost use Rattle.walk_pick.specs.Branch.{score_by, candidate_by, Scorable};
ghost use Rattle.walk_weighing.specs.Weights.{weights_of, marks_of};
ghost use Rattle.walk.specs.Branching.{best};
ghost use Rattle.walk.specs.Walk.{first_value};
ghost use Rattle.walk_pick.specs.Pick.{branch_on, pick_spent, pick_of};

use crate::best::best_variable;
use literal::Variable;

// The branching variable with the value that it takes first.
#[derive(Clone, Copy)]
pub struct Decision {
    pub variable: Variable,
    pub value: u8,
}

// Decides a propagated state whose completion is no model: where it branches, or nothing at a dead end. The numbers to weigh with are lent from the root: as
// locals they would stand in the frame of every level into which this is inlined. So are the witnesses, which
// are remembered from state to state.
pub fn pick_branch(
    rules: &[i32],
    arrangement: &[u16],
    row: &[u8],
    d: usize,
    broken: usize,
    a: &[u8],
    witnesses: &mut [u16],
    weights: &mut [u64],
) -> Option<Decision>
    requires broken_value { (broken ≡ disagreement row.now a.now) × (SoundList (length a.now) rules.now) }
    requires a_in_bounds { 3 * length a.now + 2 < length weights.old }
    requires none_short { NoneShort row.now a.now (clauses rules.now) }
    requires located { Located rules.now (begins_of arrangement.now) × Witnesses rules.now witnesses.old }
    ensures pick { result ≡ pick_of (clauses rules.now) row.now d a.now }
    ensures witness { Witnesses rules.now witnesses.new }
{
    if broken == d {
        return pick_at_limit(rules, arrangement, row, a, witnesses, weights);
    }
    let size = walk_opposed::fewest_opposed(rules, row, a);
    // below the limit it never stops, so its answer is known
    walk_weighing::weigh_list(
        rules,
        arrangement,
        row,
        a,
        size,
        false,
        &mut *witnesses,
        &mut *weights,
    );
    best_branch(row, size, a, weights)
}

// The same where the limit is spent. An opposed clause is a dead end there, and the weighing stops at it; where
// it does not stop there is none, so it weighs with none, and the list is read once.
fn pick_at_limit(
    rules: &[i32],
    arrangement: &[u16],
    row: &[u8],
    a: &[u8],
    witnesses: &mut [u16],
    weights: &mut [u64],
) -> Option<Decision>
    requires sound_list { SoundList (length a.now) rules.now }
    requires a_in_bounds { 3 * length a.now + 2 < length weights.old }
    requires located { Located rules.now (begins_of arrangement.now) × Witnesses rules.now witnesses.old }
    ensures pick { result ≡ pick_spent (clauses rules.now) row.now a.now }
    ensures witness { Witnesses rules.now witnesses.new }
{
    if walk_weighing::weigh_list(
        rules,
        arrangement,
        row,
        a,
        None,
        true,
        &mut *witnesses,
        &mut *weights,
    ) {
        return None;
    }
    best_branch(row, None, a, weights)
}

// The best variable by the weights and the marks, with its first value.
fn best_branch(row: &[u8], size: Option<usize>, a: &[u8], weights: &[u64]) -> Option<Decision>
    requires { (3 * length a.now + 2 < length weights.now) × Scorable (length a.now) (weights_of (length a.now) weights.now) (marks_of (length a.now) weights.now) }
    ensures { result ≡ branch_on row.now size (best (candidate_by a.now (marks_of (length a.now) weights.now)) (score_by (weights_of (length a.now) weights.now)) (length a.now)) }
{
    let literals = 2 * a.len() + 2;
    // some clause is open here, so there is one
    let variable = best_variable(a, &weights[..literals], &weights[literals..])?;
    Some(Decision {
        variable: variable,
        value: first_value(row, size, variable),
    })
}

// The value to try first: against the wish where a clause asks for that, else on.
fn first_value(row: &[u8], size: Option<usize>, v: Variable) -> u8
    ensures { result ≡ first_value row.now size v.0 }
{
    match size {
        None => 1,
        Some(_) => wish::unwished_value(literal::value_of(v, row)),
    }
}
