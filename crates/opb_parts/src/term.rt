// The term of a literal with a weight.
ghost use Rattle.std.specs.Prelude.{◌≡◌, ◌+◌, ◌<◌, ◌≤◌, length};
ghost use Rattle.writing.specs.Wrote.{Wrote};
ghost use Rattle.opb_pseudo_boolean.specs.Export.{term};
ghost use Rattle.opb_format.specs.Laws.{sign_of};
ghost use Rattle.opb_format.specs.Opb.{term_text};

// How many bytes a term takes, with the space behind it: two numbers, a sign, an x and two spaces.
pub fn term_length(weight: usize, x: i32) -> usize
    requires { 0 < weight }
    ensures { (result ≡ length (term_text (term weight x))) × (result ≤ 44) }
{
    text::number_length(weight) + text::number_length(literal::variable_of(x).0) + 4
}

// Puts a term and the space behind it.
pub fn put_term(weight: usize, x: i32, out: &mut [u8], at: usize) -> usize
    requires { (0 < weight) × (at + length (term_text (term weight x)) ≤ length out.old) }
    ensures { Wrote (term_text (term weight x)) out.old at out.new result }
{
    let variable = literal::variable_of(x).0;
    let number = text::put_byte(sign_of(x), out, at);
    let between = text::put_number(weight, out, number);
    let name = text::put_bytes(b" x", out, between);
    let end = text::put_number(variable, out, name);
    text::put_byte(b' ', out, end)
}

// The sign of the coefficient.
fn sign_of(x: i32) -> u8
    ensures { result ≡ sign_of x }
{
    if literal::wanted_by(x) == 0 {
        b'-'
    } else {
        b'+'
    }
}
