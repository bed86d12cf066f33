// The shortest opposed clause of a list.
ghost use Rattle.std.specs.Prelude.{◌≡◌, true, ◌<◌, length, drop, Some};
ghost use Rattle.formula.specs.Formula.{clauses};
ghost use Rattle.walk.specs.Branching.{is_opposed, shortest};
ghost use Rattle.walk_clause_standing.specs.Clause.{clause_at};
ghost use Rattle.walk_opposed.specs.Opposed.{KeepsShortest, NoneShort};

use crate::clause::read_opposed;
use crate::pair::{shorter, unassigned_in};

// Where an opposed clause begins, if there is one: goes through the list until a clause is opposed.
pub fn find_opposed(rules: &[i32], row: &[u8], assignment: &[u8]) -> Option<usize>
    ensures { KeepsShortest row.now assignment.now rules.now result }
{
    let mut from = 0;
    while from < rules.len() {
        let reading = read_opposed(rules, from, row, assignment);
        if !reading.passed {
            return Some(from);
        }
        from = reading.end + 1;
    }
    None
}

// The shortest opposed clause, handed back as itself, given where one begins that it is not before. None has
// less than two unassigned literals, so the list is read on only while the clause kept has more than two.
pub fn shortest_opposed<'a>(
    rules: &'a [i32],
    first: usize,
    row: &[u8],
    assignment: &[u8],
) -> &'a [i32]
    requires first_in_bounds { (first < length rules.now) × (is_opposed row.now assignment.now (clause_at first rules.now) ≡ true) }
    requires none_short { NoneShort row.now assignment.now (clauses (drop first rules.now)) }
    ensures { Some result.now ≡ shortest row.now assignment.now (clauses (drop first rules.now)) }
{
    let first_end = formula::clause_end(rules, first);
    let mut kept = &rules[first..first_end];
    let mut size = unassigned_in(kept, assignment);
    let mut from = first_end + 1;
    while from < rules.len() {
        if size < 3 {
            return kept;
        }
        let reading = read_opposed(rules, from, row, assignment);
        let end = reading.end;
        if !reading.passed {
            let best = shorter(kept, &rules[from..end], assignment);
            kept = best;
            size = unassigned_in(kept, assignment);
        }
        from = end + 1;
    }
    kept
}
