// A variable's score, and whether it is a candidate.
ghost use Rattle.std.specs.Prelude.{◌≡◌, ℕ, ◌+◌, ◌*◌, ◌^◌, ◌≤◌, ◌<◌, length, get_or};
ghost use Rattle.walk_pick.specs.Branch.{score_by, candidate_by};

use literal::Variable;

// The score of a variable: 2P + 2Q + 3 min(P, Q) with the weights P of its literal and Q of the
// negated one.
pub fn score_of(v: Variable, weights: &[u64]) -> u64
    requires { (2 * v.0 + 1 < length weights.now) × ((i : ℕ) → get_or weights.now i 0 ≤ 2 ^ 60) }
    ensures { result ≡ score_by weights.now v.0 }
{
    let at = 2 * v.0;
    let off = weights[at];
    let on = weights[at + 1];
    2 * on + 2 * off + 3 * on.min(off)
}

// Whether a variable is unassigned and marked.
pub fn is_candidate(v: Variable, assignment: &[u8], marks: &[u64]) -> bool
    requires { v.0 < length marks.now }
    ensures { result ≡ candidate_by assignment.now marks.now v.0 }
{
    let number = v.0;
    if literal::value_of(v, assignment) != 2 {
        return false;
    }
    marks[number] == 1
}
