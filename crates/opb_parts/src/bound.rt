// The bound of a line, a number less another.
ghost use Rattle.std.specs.Prelude.{◌≡◌, ◌+◌, ◌≤◌, pos, ◌-ℤ◌, length};
ghost use Rattle.text.specs.Text.{numeral};
ghost use Rattle.writing.specs.Wrote.{Wrote};
ghost use Rattle.opb_format.specs.Opb.{bound_text};

// How many bytes a line takes from its `>=` on.
pub fn bound_length(a: usize, b: usize) -> usize
    ensures { (result ≡ length (bound_text (pos a -ℤ pos b))) × (result ≤ 27) }
{
    if a < b {
        text::number_length(b - a) + 7
    } else {
        text::number_length(a - b) + 6
    }
}

// Puts a line's `>=` and all behind it.
pub fn put_bound(a: usize, b: usize, out: &mut [u8], at: usize) -> usize
    requires { at + length (bound_text (pos a -ℤ pos b)) ≤ length out.old }
    ensures { Wrote (bound_text (pos a -ℤ pos b)) out.old at out.new result }
{
    let number = text::put_bytes(b">= ", out, at);
    let end = put_difference(a, b, out, number);
    text::put_bytes(b" ;\n", out, end)
}

// Puts a number less another, behind a minus where that is below 0.
fn put_difference(a: usize, b: usize, out: &mut [u8], at: usize) -> usize
    requires { at + length (numeral (pos a -ℤ pos b)) ≤ length out.old }
    ensures { Wrote (numeral (pos a -ℤ pos b)) out.old at out.new result }
{
    if a < b {
        let next = text::put_byte(b'-', out, at);
        text::put_number(b - a, out, next)
    } else {
        text::put_number(a - b, out, at)
    }
}
