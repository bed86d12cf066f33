// Which wishes can be assumed.
ghost use Rattle.std.specs.Prelude.{◌≡◌, ◌&&◌, map, length};
ghost use Rattle.literal.specs.Literal.{value};
ghost use Rattle.wish.specs.Wish.{is_wish};
ghost use Rattle.walk.specs.State.{is_unset};
ghost use Rattle.nearest_cores.specs.Cores.{taken_byte, is_left};

use literal::Variable;

// What is assigned is taken.
fn taken_byte(byte: u8) -> u8
    ensures { result ≡ taken_byte byte }
{
    if byte == 2 { 0 } else { 1 }
}

// At the start what the state assigns is taken.
pub fn take_assigned(a: &[u8], taken: &mut [u8])
    requires { length taken.old ≡ length a.now }
    ensures { taken.new ≡ map taken_byte a.now }
{
    for (i, byte) in a.iter().enumerate() {
        taken[i] = taken_byte(*byte);
    }
}

// Whether a wish can be assumed: it is not taken, and nothing is known of it yet.
pub fn is_assumable(v: Variable, row: &[u8], a: &[u8], taken: &[u8]) -> bool
    ensures { result ≡ is_wish (value row.now v.0) && is_left taken.now v.0 && is_unset (value a.now v.0) }
{
    wish::is_wish(literal::value_of(v, row))
        && literal::value_of(v, taken) == 0
        && literal::value_of(v, a) == 2
}
