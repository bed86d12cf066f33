// Decimal numbers.
ghost use Rattle.std.specs.Prelude.{◌≡◌, ◌+◌, ◌≤◌, length};
ghost use Rattle.decimal.specs.Decimal.{decimal};
ghost use Rattle.writing.specs.Wrote.{Wrote};

// How many digits a number has.
pub fn number_length(v: usize) -> usize
    ensures { (result ≡ length (decimal v)) × (result ≤ 20) }
{
    let mut count = 1;
    let mut rest = v;
    while 10 <= rest {
        rest = rest / 10;
        count += 1;
    }
    count
}

// Puts a number's digits, the last one first.
pub fn put_number(v: usize, out: &mut [u8], at: usize) -> usize
    requires { at + length (decimal v) ≤ length out.old }
    ensures { Wrote (decimal v) out.old at out.new result }
{
    let end = at + number_length(v);
    let mut rest = v;
    // The first digit stands apart: a number of one digit has no turn.
    for i in (at + 1..end).rev() {
        out[i] = b'0' + (rest % 10) as u8;
        rest = rest / 10;
    }
    out[at] = b'0' + (rest % 10) as u8;
    end
}
