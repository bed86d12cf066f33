// The walk in space of its own, whose answer goes to a lent choice.
ghost use Rattle.std.specs.Prelude.{length};
ghost use Rattle.formula.specs.Formula.{clauses};
ghost use Rattle.walk.specs.Walk.{walk};
ghost use Rattle.search_state.specs.Ready.{Startable};
ghost use Rattle.walk_root.specs.Into.{Reaches};

use crate::walk_from_root;
use search_state::Tried;

// Makes the tables, prepares them, and walks from the root; where that finds an answer, it stands in the first n
// bytes of the choice.
pub fn walk_into(n: usize, rules: &[i32], row: &[u8], d: usize, choice: &mut [u8]) -> Tried
    requires { Startable n rules.now (length choice.old) }
    ensures { Reaches (walk n (clauses rules.now) row.now d) n choice.old choice.new result }
{
    let mut arrangement = [0u16; 50282];
    let mut witnesses = [0u16; 9000];
    let mut a = [0u8; 640];
    let mut trail = [0u16; 640];
    let mut weights = [0u64; 1923];
    let many = search_state::prepare(n, rules, &mut arrangement, &mut witnesses);
    // what n variables need of the table: the weighing clears what it is lent
    let places = 3 * n + 3;
    let tried = walk_from_root(
        rules,
        &arrangement,
        row,
        d,
        &mut a[..n],
        &mut trail[..n],
        &mut witnesses[..many],
        &mut weights[..places],
    );
    if tried.found.is_some() {
        search_state::copy_to(&a[..n], choice);
    }
    tried
}
