// The weights and the marks of a whole list.
ghost use Rattle.std.specs.Prelude.{◌≡◌, false, ◌&&◌, [], ◌-◌, ◌≤◌, ◌<◌, length, get_or};
ghost use Rattle.formula.specs.Formula.{any, clauses};
ghost use Rattle.walk_occurrences.specs.Layout.{begins_of};
ghost use Rattle.walk_occurrences.specs.Table.{Located};
ghost use Rattle.walk.specs.Branching.{is_opposed};
ghost use Rattle.walk_witnesses.specs.Witnesses.{Witnesses};
ghost use Rattle.walk_weighing.specs.Weights.{Weighable, Weighed, WeighableList, Totals};

use crate::clause::weigh_clause;
use literal::Clause;
use walk_clause_standing::ReadClause;

// Whether an open clause makes a dead end (document 01, step 3): an opposed one does where the limit is
// spent, that is, where as many wishes are broken as may be.
fn exhausts(spent: bool, clause: &[i32], row: &[u8], assignment: &[u8]) -> bool
    ensures { result ≡ spent && is_opposed row.now assignment.now clause.now }
{
    if !spent {
        return false;
    }
    walk_opposed::is_opposed(clause, row, assignment)
}

// Weighs a clause, and tells whether it makes a dead end instead. It is not read if its witness holds; if
// another literal does, that is its witness from now on.
fn weigh_at(
    rules: &[i32],
    arrangement: &[u16],
    number: Clause,
    row: &[u8],
    assignment: &[u8],
    fewest: Option<usize>,
    spent: bool,
    witnesses: &mut [u16],
    weights: &mut [u64],
) -> bool
    requires located { Located rules.now (begins_of arrangement.now) × Witnesses rules.now witnesses.old × (0 < number.0) × (number.0 ≤ length (clauses rules.now)) }
    requires weighable { Weighable (length assignment.now) (get_or (clauses rules.now) (number.0 - 1) []) weights.old }
    ensures witness { Witnesses rules.now witnesses.new }
    ensures dead { result ≡ spent && is_opposed row.now assignment.now (get_or (clauses rules.now) (number.0 - 1) []) }
    ensures weighed { result ≡ false → Weighed row.now assignment.now fewest (get_or (clauses rules.now) (number.0 - 1) []) weights.old weights.new }
{
    if walk_witnesses::is_witnessed(rules, witnesses, number, assignment) {
        return false;
    }
    let from = walk_occurrences::begin_of(arrangement, number);
    match walk_clause_standing::read_clause(rules, from, assignment) {
        ReadClause::Satisfied(at) => {
            witnesses[number.0 - 1] = at as u16;
            false
        }
        ReadClause::Open(end, count) => {
            let clause = &rules[from..end];
            if exhausts(spent, clause, row, assignment) {
                return true;
            }
            weigh_clause(clause, count, row, assignment, fewest, &mut *weights);
            false
        }
    }
}

// Weighs the clauses of a list, each of which has one witness. Where the limit is spent it stops at the first
// that makes a dead end, and tells so; the weights and marks then say nothing.
pub fn weigh_list(
    rules: &[i32],
    arrangement: &[u16],
    row: &[u8],
    assignment: &[u8],
    fewest: Option<usize>,
    spent: bool,
    witnesses: &mut [u16],
    weights: &mut [u64],
) -> bool
    requires weighable_list { WeighableList (length assignment.now) rules.now weights.old }
    requires located { Located rules.now (begins_of arrangement.now) × Witnesses rules.now witnesses.old }
    ensures witness { Witnesses rules.now witnesses.new }
    ensures dead { result ≡ spent && any (is_opposed row.now assignment.now) (clauses rules.now) }
    ensures weighed { result ≡ false → Totals row.now assignment.now fewest (clauses rules.now) weights.new }
{
    weights.fill(0);
    for k in 0..witnesses.len() {
        if weigh_at(
            rules,
            arrangement,
            Clause(k + 1),
            row,
            assignment,
            fewest,
            spent,
            &mut *witnesses,
            &mut *weights,
        ) {
            return true;
        }
    }
    false
}
