// Whether a clause is opposed.
ghost use Rattle.std.specs.Prelude.{◌≡◌};
ghost use Rattle.walk.specs.Branching.{is_opposed};
ghost use Rattle.walk_clause_standing.specs.Clause.{Tested};
ghost use Rattle.walk_opposed.specs.Opposes.{opposes, spares};

use walk_clause_standing::TestedClause;

// Whether a literal does not hold and, where it is unassigned, goes against a wish.
pub fn is_opposing(x: i32, row: &[u8], assignment: &[u8]) -> bool
    ensures { result ≡ opposes row.now assignment.now x }
{
    if literal::holds_in(x, assignment) {
        return false;
    }
    if walk_clause_standing::is_unassigned(x, assignment) {
        return wish::is_against(x, row);
    }
    true
}

// Whether every literal of a clause does so.
pub fn is_opposed(clause: &[i32], row: &[u8], assignment: &[u8]) -> bool
    ensures { result ≡ is_opposed row.now assignment.now clause.now }
{
    for x in clause {
        if !is_opposing(*x, row, assignment) {
            return false;
        }
    }
    true
}

// Reads the clause that begins at an index of a list for a literal that does not: where there is none, the clause is
// opposed.
pub fn read_opposed(rules: &[i32], from: usize, row: &[u8], assignment: &[u8]) -> TestedClause
    ensures { Tested (spares row.now assignment.now) rules.now from result.end result.passed }
{
    walk_clause_standing::test_clause(rules, from, |x| !is_opposing(x, row, assignment))
}
