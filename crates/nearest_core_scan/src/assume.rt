// A wish is assumed.
ghost use Rattle.std.specs.Prelude.{◌≡◌, ◌≤◌, ◌<◌, length};
ghost use Rattle.formula.specs.Formula.{clauses};
ghost use Rattle.literal.specs.Literal.{value};
ghost use Rattle.walk_propagation.specs.Looking.{Following};
ghost use Rattle.walk_unit_queue.specs.Due.{NoneDue};
ghost use Rattle.nearest_core_scan.specs.Assuming.{AssumedBy};

use literal::Variable;
use walk_propagation::DeadEnd;
use walk_tally::Tally;

// No count of broken wishes is above this, so that a dead end is a falsified clause.
pub const NO_LIMIT: usize = usize::MAX;

// Assigns a variable as it is wished, and propagates that.
pub fn assume(
    rules: &[i32],
    arrangement: &[u16],
    row: &[u8],
    tally: Tally,
    v: Variable,
    a: &mut [u8],
    trail: &mut [u16],
) -> Result<Tally, DeadEnd>
    requires following { Following rules.now arrangement.now row.now tally a.old trail.old × NoneDue (clauses rules.now) a.old }
    requires v_nonzero { (0 < v.0) × (v.0 ≤ length a.old) × (value a.old v.0 ≡ 2) }
    ensures { AssumedBy (length a.old) (clauses rules.now) row.now v.0 tally a.old trail.old a.new trail.new result }
{
    let wished = wish::wished_value(literal::value_of(v, row));
    let with = walk_propagation::assign_to(tally, row, v, wished, a, trail);
    walk_propagation::propagate_units(
        rules,
        arrangement,
        row,
        NO_LIMIT,
        tally.settled,
        with,
        a,
        trail,
    )
}
