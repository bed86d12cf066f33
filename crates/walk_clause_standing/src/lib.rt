// How a clause stands in an assignment.
#![tactic(auto)]

ghost use Rattle.std.specs.Prelude.{◌≡◌, Bool, ℤ};
ghost use Rattle.walk.specs.State.{is_unassigned};
ghost use Rattle.walk_clause_standing.specs.Clause.{Decides, Tested};
ghost use Rattle.walk_clause_standing.specs.Standing.{IsRead};

// A clause of a list that was read: a literal of it holds, at an index of the list; or it is open, ends at an
// index, and has so many unassigned literals.
#[derive(Clone, Copy)]
pub enum ReadClause {
    Satisfied(usize),
    Open(usize, usize),
}

// Whether the variable of a literal is unassigned.
pub fn is_unassigned(x: i32, assignment: &[u8]) -> bool
    ensures { result ≡ is_unassigned assignment.now x }
{
    literal::value_of(literal::variable_of(x), assignment) == 2
}

// Reads the clause that begins at an index, up to the first literal that holds.
pub fn read_clause(rules: &[i32], from: usize, assignment: &[u8]) -> ReadClause
    ensures { IsRead assignment.now rules.now from result }
{
    let mut count: usize = 0;
    for i in from..rules.len() {
        if literal::closes(rules[i]) {
            return ReadClause::Open(i, count);
        }
        if literal::holds_in(rules[i], assignment) {
            return ReadClause::Satisfied(i);
        }
        if is_unassigned(rules[i], assignment) {
            count += 1;
        }
    }
    ReadClause::Open(from.max(rules.len()), count)
}

// A clause of a list: where it ends, and whether a literal of it passes a test.
#[derive(Clone, Copy)]
pub struct TestedClause {
    pub end: usize,
    pub passed: bool,
}

// Reads the clause that begins at an index, each literal once, for one that passes a test. After that one it
// looks only for the clause's end.
pub fn test_clause<F: Fn(i32) -> bool>(rules: &[i32], from: usize, test: F) -> TestedClause
    requires { F.IsAlwaysCallable test }
    ensures { (p : ℤ → Bool) → Decides (F.post test) p → Tested p rules.now from result.end result.passed }
{
    for i in from..rules.len() {
        let x = rules[i];
        if literal::closes(x) {
            return TestedClause {
                end: i,
                passed: false,
            };
        }
        if test(x) {
            return TestedClause {
                end: formula::clause_end(rules, i + 1),
                passed: true,
            };
        }
    }
    TestedClause {
        end: from.max(rules.len()),
        passed: false,
    }
}
