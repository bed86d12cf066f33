// Witnesses: for each clause an index of the closed list. Where the literal that stands there holds, the clause
// is satisfied and need not be read.
#![tactic(auto)]

ghost use Rattle.std.specs.Prelude.{◌≡◌, ◌-◌, ◌≤◌, ◌<◌, pos, length, get_or};
ghost use Rattle.literal.specs.Literal.{holds};
ghost use Rattle.formula.specs.Formula.{clauses};
ghost use Rattle.walk_witnesses.specs.Witnesses.{Witnesses};

use literal::Clause;

// Whether the witness of a clause holds.
pub fn is_witnessed(rules: &[i32], witnesses: &[u16], number: Clause, assignment: &[u8]) -> bool
    requires { Witnesses rules.now witnesses.now × (0 < number.0) × (number.0 ≤ length (clauses rules.now)) }
    ensures { result ≡ holds assignment.now (get_or rules.now (get_or witnesses.now (number.0 - 1) 0) (pos 0)) }
{
    let k = number.0 - 1;
    let at = witnesses[k] as usize;
    literal::holds_in(rules[at], assignment)
}
