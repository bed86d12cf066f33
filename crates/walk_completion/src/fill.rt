// The completion, written over the assignment.
ghost use Rattle.std.specs.Prelude.{◌≡◌};
ghost use Rattle.walk.specs.Walk.{complete};

use crate::byte::complete_byte;
use literal::Variable;

// Turns an assignment into its completion.
pub fn fill_completion(row: &[u8], assignment: &mut [u8])
    ensures { assignment.new ≡ complete row.now assignment.old }
{
    for i in 0..assignment.len() {
        assignment[i] = complete_byte(literal::value_of(Variable(i + 1), row), assignment[i]);
    }
}
