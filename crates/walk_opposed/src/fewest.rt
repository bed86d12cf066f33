// How many unassigned literals the shortest opposed clause has.
ghost use Rattle.std.specs.Prelude.{◌≡◌};
ghost use Rattle.formula.specs.Formula.{clauses};
ghost use Rattle.walk.specs.Branching.{fewest};
ghost use Rattle.walk_opposed.specs.Opposed.{NoneShort};

use crate::pair::unassigned_in;
use crate::shortest::{find_opposed, shortest_opposed};

// Counts the unassigned literals of the shortest opposed clause, where there is one.
pub fn fewest_opposed(rules: &[i32], row: &[u8], assignment: &[u8]) -> Option<usize>
    requires { NoneShort row.now assignment.now (clauses rules.now) }
    ensures { result ≡ fewest row.now assignment.now (clauses rules.now) }
{
    let from = find_opposed(rules, row, assignment)?;
    let shortest = shortest_opposed(rules, from, row, assignment);
    Some(unassigned_in(shortest, assignment))
}
