// The parts of a rule file, put into bytes that have room for them.
ghost use Rattle.std.specs.Prelude.{◌≡◌, ◌+◌, ◌≤◌, length};
ghost use Rattle.writing.specs.Wrote.{Wrote};
ghost use Rattle.rule_file.specs.Written.{separator, body, header_text};
ghost use Rattle.rule_file_writer.specs.Write.{element_text};

// What follows a number of the list: a line feed after 0, else a space.
fn separator_of(x: i32) -> u8
    ensures { result ≡ separator x }
{
    if literal::closes(x) { b'\n' } else { b' ' }
}

// Puts an element of the list and what follows it.
fn put_element(x: i32, out: &mut [u8], at: usize) -> usize
    requires { at + length (element_text x) ≤ length out.old }
    ensures { Wrote (element_text x) out.old at out.new result }
{
    let end = text::put_signed(x, out, at);
    text::put_byte(separator_of(x), out, end)
}

// Puts the lines of a list.
pub fn put_body(rules: &[i32], out: &mut [u8], from: usize) -> usize
    requires { from + length (body rules.now) ≤ length out.old }
    ensures { Wrote (body rules.now) out.old from out.new result }
{
    let mut at = from;
    for x in rules {
        at = put_element(*x, out, at);
    }
    at
}

// Puts the header and its line feed.
pub fn put_header(n: usize, clauses: usize, out: &mut [u8]) -> usize
    requires { length (header_text n clauses) ≤ length out.old }
    ensures { Wrote (header_text n clauses) out.old 0 out.new result }
{
    let variables = text::put_bytes(b"p cnf ", out, 0);
    let space = text::put_number(n, out, variables);
    let count = text::put_byte(b' ', out, space);
    let end = text::put_number(clauses, out, count);
    text::put_byte(b'\n', out, end)
}
