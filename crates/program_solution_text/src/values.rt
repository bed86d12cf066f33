// The values of a choice, as solvers print them.
ghost use Rattle.std.specs.Prelude.{◌+◌, ◌<◌, ◌≤◌, length};
ghost use Rattle.writing.specs.Wrote.{Wrote};
ghost use Rattle.program_solution_text.specs.Lines.{line_break, entry, values};

use literal::Variable;

// How many values stand on a line.
const PER_LINE: usize = 16;

// Begins a new line before the value of index i, where one is due.
fn put_break(i: usize, out: &mut [u8], at: usize) -> usize
    requires { at + length (line_break i) ≤ length out.old }
    ensures { Wrote (line_break i) out.old at out.new result }
{
    if i == 0 || i % PER_LINE != 0 {
        return at;
    }
    text::put_bytes(b"\nv", out, at)
}

// Puts the value of index i: a space and its variable's number, behind a minus where it is off.
fn put_value(i: usize, value: u8, out: &mut [u8], from: usize) -> usize
    requires { (i < 256) × (from + length (entry i value) ≤ length out.old) }
    ensures { Wrote (entry i value) out.old from out.new result }
{
    let at = put_break(i, out, from);
    let next = text::put_byte(b' ', out, at);
    text::put_signed(literal::literal_of(Variable(i + 1), value == 1), out, next)
}

// Puts the values of a choice.
pub fn put_values(choice: &[u8], out: &mut [u8], from: usize) -> usize
    requires { (length choice.now ≤ 256) × (from + length (values 0 choice.now) ≤ length out.old) }
    ensures { Wrote (values 0 choice.now) out.old from out.new result }
{
    let mut at = from;
    for (i, value) in choice.iter().enumerate() {
        at = put_value(i, *value, out, at);
    }
    at
}
