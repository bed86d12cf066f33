// What a clause asks for.
ghost use Rattle.std.specs.Prelude.{◌≡◌};
ghost use Rattle.walk_clause_standing.specs.Clause.{clause_at};
ghost use Rattle.walk_propagation.specs.Unit.{asks, unit_by};

// A falsified clause, the one unassigned literal of a unit clause, or neither.
#[derive(Clone, Copy)]
pub enum Unit {
    Conflict,
    Literal(i32),
    Nothing,
}

// Reads the clause that begins at an index, up to a literal that holds or to the second one that is
// unassigned: it asks for nothing then.
pub fn unit_at(rules: &[i32], from: usize, a: &[u8]) -> Unit
    ensures { result ≡ asks a.now (clause_at from rules.now) }
{
    let mut found: Option<i32> = None;
    for i in from..rules.len() {
        let x = rules[i];
        if literal::closes(x) {
            return unit_by(found);
        }
        if literal::holds_in(x, a) {
            return Unit::Nothing;
        }
        if walk_clause_standing::is_unassigned(x, a) {
            if found.is_some() {
                return Unit::Nothing;
            }
            found = Some(x);
        }
    }
    unit_by(found)
}

// At the end of an open clause with one unassigned literal, or with none.
fn unit_by(found: Option<i32>) -> Unit
    ensures { result ≡ unit_by found }
{
    match found {
        None => Unit::Conflict,
        Some(x) => Unit::Literal(x),
    }
}
