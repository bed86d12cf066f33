// The shorter of two clauses.
ghost use Rattle.std.specs.Prelude.{◌≡◌};
ghost use Rattle.walk.specs.Branching.{shorter};
ghost use Rattle.walk.specs.State.{unassigned_in};

// The number of unassigned literals of a clause.
pub fn unassigned_in(clause: &[i32], assignment: &[u8]) -> usize
    ensures { result ≡ unassigned_in assignment.now clause.now }
{
    clause
        .iter()
        .filter(|x| walk_clause_standing::is_unassigned(**x, assignment))
        .count()
}

// Of two clauses the one with fewer unassigned literals, the first if equal, handed back as itself.
pub fn shorter<'a>(first: &'a [i32], second: &'a [i32], assignment: &[u8]) -> &'a [i32]
    ensures { result.now ≡ shorter assignment.now first.now second.now }
{
    if unassigned_in(second, assignment) < unassigned_in(first, assignment) {
        second
    } else {
        first
    }
}
