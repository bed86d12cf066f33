// Formulas in conjunctive normal form, as one list of literals in which a 0 closes each clause.
#![tactic(auto)]

ghost use Rattle.std.specs.Prelude.{◌≡◌, ◌+◌, drop};
ghost use Rattle.formula.specs.Formula.{clauses, clause_length, satisfied, models};

// Where the clause that begins at an index ends: the index of its closing 0, or the list's length.
pub fn clause_end(rules: &[i32], from: usize) -> usize
    ensures { result ≡ from + clause_length (drop from rules.now) }
{
    for i in from..rules.len() {
        if literal::closes(rules[i]) {
            return i;
        }
    }
    from.max(rules.len())
}

// Whether an assignment makes some literal of a clause hold.
pub fn satisfied_by(clause: &[i32], assignment: &[u8]) -> bool
    ensures { result ≡ satisfied assignment.now clause.now }
{
    clause.iter().any(|x| literal::holds_in(*x, assignment))
}

// Whether an assignment satisfies every clause of a list.
pub fn is_model(rules: &[i32], assignment: &[u8]) -> bool
    ensures { result ≡ models assignment.now (clauses rules.now) }
{
    let mut from = 0;
    while from < rules.len() {
        let end = clause_end(rules, from);
        if !satisfied_by(&rules[from..end], assignment) {
            return false;
        }
        from = end + 1;
    }
    true
}
