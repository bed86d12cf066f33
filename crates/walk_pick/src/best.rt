// The best candidate.
ghost use Rattle.std.specs.Prelude.{◌≡◌, ◌≤◌, length, option_map};
ghost use Rattle.literal.specs.declared.Variable.{Variable};
ghost use Rattle.walk.specs.Branching.{better, best};
ghost use Rattle.walk_pick.specs.Branch.{score_by, candidate_by, Scorable, UpTo};

use crate::score::{is_candidate, score_of};
use literal::Variable;

// The better of the best so far and the next variable.
pub fn better_of(
    leader: Option<Variable>,
    v: Variable,
    assignment: &[u8],
    weights: &[u64],
    marks: &[u64],
) -> Option<Variable>
    requires scorable { Scorable (length assignment.now) weights.now marks.now }
    requires v_in_bounds { (v.0 ≤ length assignment.now) × UpTo (length assignment.now) (option_map (λ (u : Variable). u.0) leader) }
    ensures { option_map (λ (u : Variable). u.0) result ≡ better (candidate_by assignment.now marks.now) (score_by weights.now) (option_map (λ (u : Variable). u.0) leader) v.0 }
{
    if !is_candidate(v, assignment, marks) {
        return leader;
    }
    let Some(u) = leader else {
        return Some(v);
    };
    if score_of(u, weights) < score_of(v, weights) {
        return Some(v);
    }
    leader
}

// The candidate with the highest score, of equal ones the first.
pub fn best_variable(assignment: &[u8], weights: &[u64], marks: &[u64]) -> Option<Variable>
    requires { Scorable (length assignment.now) weights.now marks.now }
    ensures { option_map (λ (u : Variable). u.0) result ≡ best (candidate_by assignment.now marks.now) (score_by weights.now) (length assignment.now) }
{
    let mut leader = None;
    for i in 0..assignment.len() {
        leader = better_of(leader, Variable(i + 1), assignment, weights, marks);
    }
    leader
}
