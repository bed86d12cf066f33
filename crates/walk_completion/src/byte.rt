// The completion, variable by variable.
ghost use Rattle.std.specs.Prelude.{◌≡◌};
ghost use Rattle.literal.specs.Literal.{value};
ghost use Rattle.walk.specs.Walk.{complete, complete_byte};

use literal::Variable;

// A variable's value in the completion, from its wish and its value.
pub fn complete_byte(wish: u8, byte: u8) -> u8
    ensures { result ≡ complete_byte wish byte }
{
    if byte == 2 {
        wish::wished_value(wish)
    } else {
        byte
    }
}

// A variable's value in the completion, 2 where it has none. The number 0 is no variable, so it has none.
pub fn completed_value(v: Variable, row: &[u8], assignment: &[u8]) -> u8
    ensures { result ≡ value (complete row.now assignment.now) v.0 }
{
    let number = v.0;
    if number == 0 {
        return 2;
    }
    let at = number - 1;
    if at < assignment.len() {
        complete_byte(literal::value_of(v, row), assignment[at])
    } else {
        2
    }
}
