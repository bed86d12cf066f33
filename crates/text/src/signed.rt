// Signed numbers. Here `variable_of` gives the magnitude of any of them: a closing zero has digits too, and
// no variable is meant.
ghost use Rattle.std.specs.Prelude.{◌≡◌, ◌+◌, ◌≤◌, length};
ghost use Rattle.text.specs.Text.{numeral};
ghost use Rattle.writing.specs.Wrote.{Wrote};

use crate::{bytes, number};

// How many bytes a signed number takes.
pub fn signed_length(x: i32) -> usize
    ensures { (result ≡ length (numeral x)) × (result ≤ 11) }
{
    let digits = number::number_length(literal::variable_of(x).0);
    if literal::wanted_by(x) == 0 {
        digits + 1
    } else {
        digits
    }
}

// Puts a number's digits, behind a minus where it is negative.
pub fn put_signed(x: i32, out: &mut [u8], at: usize) -> usize
    requires { at + length (numeral x) ≤ length out.old }
    ensures { Wrote (numeral x) out.old at out.new result }
{
    let v = literal::variable_of(x);
    if literal::wanted_by(x) == 0 {
        let next = bytes::put_byte(b'-', out, at);
        number::put_number(v.0, out, next)
    } else {
        number::put_number(v.0, out, at)
    }
}
