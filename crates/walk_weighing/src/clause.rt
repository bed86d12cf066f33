// What one clause adds to the weights and the marks.
ghost use Rattle.std.specs.Prelude.{◌≡◌, false, ◌-◌, ◌^◌, min, length};
ghost use Rattle.formula.specs.Formula.{satisfied};
ghost use Rattle.walk.specs.State.{unassigned_in};
ghost use Rattle.walk.specs.Branching.{is_source};
ghost use Rattle.walk_weighing.specs.Weights.{Weighable, Weighed};

use crate::add::add_weight;
use crate::mark::mark_variables;

// The weight of an open clause with so many unassigned literals, a power of 4 by a shift.
pub fn clause_weight(count: usize) -> u64
    ensures { result ≡ 4 ^ (10 - min count 10) }
{
    if count < 10 { 1 << (20 - 2 * count) } else { 1 }
}

// Whether an open clause with so many unassigned literals gives candidates.
pub fn is_source(
    clause: &[i32],
    count: usize,
    row: &[u8],
    assignment: &[u8],
    fewest: Option<usize>,
) -> bool
    requires { (satisfied assignment.now clause.now ≡ false) × (unassigned_in assignment.now clause.now ≡ count) }
    ensures { result ≡ is_source row.now assignment.now fewest clause.now }
{
    let Some(size) = fewest else {
        return true;
    };
    if count != size {
        return false;
    }
    walk_opposed::is_opposed(clause, row, assignment)
}

// Adds an open clause's weight, and marks its variables where it gives candidates.
pub fn weigh_clause(
    clause: &[i32],
    count: usize,
    row: &[u8],
    assignment: &[u8],
    fewest: Option<usize>,
    weights: &mut [u64],
)
    requires clause_value { (satisfied assignment.now clause.now ≡ false) × (unassigned_in assignment.now clause.now ≡ count) }
    requires weighable { Weighable (length assignment.now) clause.now weights.old }
    ensures { Weighed row.now assignment.now fewest clause.now weights.old weights.new }
{
    let literals = 2 * assignment.len() + 2;
    add_weight(clause, clause_weight(count), &mut weights[..literals]);
    if is_source(clause, count, row, assignment, fewest) {
        mark_variables(clause, &mut weights[literals..]);
    }
}
