// Clauses are looked at by their numbers.
ghost use Rattle.formula.specs.Formula.{clauses};
ghost use Rattle.std.specs.Prelude.{[], length, get_or, ℕ, ◌-◌, ◌≤◌, ◌<◌};
ghost use Rattle.walk_unit_queue.specs.Queue.{look, look_at};
ghost use Rattle.walk_propagation.specs.Looked.{LookedBy, pending};
ghost use Rattle.walk_propagation.specs.Looking.{Looking, Numbers};

use crate::assign::assign_to;
use crate::propagated::DeadEnd;
use crate::unit::{Unit, unit_at};
use literal::Clause;
use walk_tally::Tally;

// Looks at a clause: where it is unit its literal is made to hold, and where it is falsified, or the
// literal breaks one wish too many, it is a dead end.
pub fn look_at(
    rules: &[i32],
    arrangement: &[u16],
    number: Clause,
    row: &[u8],
    d: usize,
    tally: Tally,
    a: &mut [u8],
    trail: &mut [u16],
) -> Result<Tally, DeadEnd>
    requires looking { Looking rules.now arrangement.now row.now tally a.old trail.old }
    requires number_nonzero { (0 < number.0) × (number.0 ≤ length (clauses rules.now)) }
    ensures { LookedBy (length a.old) row.now (λ (head : ℕ). look row.now d (pending head tally a.old trail.old) (get_or (clauses rules.now) (number.0 - 1) [])) tally a.old trail.old a.new trail.new result }
{
    let from = walk_occurrences::begin_of(arrangement, number);
    match unit_at(rules, from, a) {
        Unit::Conflict => Err(DeadEnd { tally: tally }),
        Unit::Nothing => Ok(tally),
        Unit::Literal(x) => {
            let v = literal::variable_of(x);
            let bit = literal::wanted_by(x);
            let with = assign_to(tally, row, v, bit, a, trail);
            if d < with.broken {
                return Err(DeadEnd { tally: with });
            }
            Ok(with)
        }
    }
}

// Looks at clauses one after the other, up to the first dead end.
pub fn look_at_all(
    rules: &[i32],
    arrangement: &[u16],
    numbers: &[u16],
    row: &[u8],
    d: usize,
    tally: Tally,
    a: &mut [u8],
    trail: &mut [u16],
) -> Result<Tally, DeadEnd>
    requires looking { Looking rules.now arrangement.now row.now tally a.old trail.old }
    requires numbers { Numbers rules.now numbers.now }
    ensures { LookedBy (length a.old) row.now (λ (head : ℕ). look_at (clauses rules.now) row.now d (pending head tally a.old trail.old) numbers.now) tally a.old trail.old a.new trail.new result }
{
    let mut present = tally;
    for number in numbers {
        let clause = Clause(*number as usize);
        present = look_at(rules, arrangement, clause, row, d, present, a, trail)?;
    }
    Ok(present)
}
