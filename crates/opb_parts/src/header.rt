// The first line.
ghost use Rattle.std.specs.Prelude.{◌≡◌, ◌≤◌, length};
ghost use Rattle.writing.specs.Wrote.{Wrote};
ghost use Rattle.opb_format.specs.Opb.{header_text};

// How many bytes the first line takes for n variables and so many constraints.
pub fn header_length(n: usize, constraints: usize) -> usize
    ensures { (result ≡ length (header_text n constraints)) × (result ≤ 68) }
{
    text::number_length(n) + text::number_length(constraints) + 28
}

// Puts the first line.
pub fn put_header(n: usize, constraints: usize, out: &mut [u8]) -> usize
    requires { length (header_text n constraints) ≤ length out.old }
    ensures { Wrote (header_text n constraints) out.old 0 out.new result }
{
    let variables = text::put_bytes(b"* #variable= ", out, 0);
    let word = text::put_number(n, out, variables);
    let count = text::put_bytes(b" #constraint= ", out, word);
    let end = text::put_number(constraints, out, count);
    text::put_byte(b'\n', out, end)
}
