// Whether the completion is a model, without building it.
ghost use Rattle.std.specs.Prelude.{◌≡◌};
ghost use Rattle.literal.specs.Literal.{holds};
ghost use Rattle.formula.specs.Formula.{clauses, models};
ghost use Rattle.walk.specs.Walk.{complete};
ghost use Rattle.walk_clause_standing.specs.Clause.{Tested};

use crate::byte::completed_value;
use walk_clause_standing::TestedClause;

// Whether a literal holds in the completion.
pub fn holds_completed(x: i32, row: &[u8], assignment: &[u8]) -> bool
    ensures { result ≡ holds (complete row.now assignment.now) x }
{
    completed_value(literal::variable_of(x), row, assignment) == literal::wanted_by(x)
}

// Reads the clause that begins at an index for a literal that holds in the completion.
pub fn read_completed(rules: &[i32], from: usize, row: &[u8], assignment: &[u8]) -> TestedClause
    ensures { Tested (holds (complete row.now assignment.now)) rules.now from result.end result.passed }
{
    walk_clause_standing::test_clause(rules, from, |x| holds_completed(x, row, assignment))
}

// Whether the completion satisfies every clause of a list, in one pass over it.
pub fn completes(rules: &[i32], row: &[u8], assignment: &[u8]) -> bool
    ensures { result ≡ models (complete row.now assignment.now) (clauses rules.now) }
{
    let mut from = 0;
    while from < rules.len() {
        let clause = read_completed(rules, from, row, assignment);
        if !clause.passed {
            return false;
        }
        from = clause.end + 1;
    }
    true
}
