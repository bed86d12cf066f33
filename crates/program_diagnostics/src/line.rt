// A line for a place of a file.
ghost use Rattle.std.specs.Prelude.{◌+◌, ◌≤◌, length};
ghost use Rattle.writing.specs.Wrote.{Wrote};
ghost use Rattle.program_diagnostics.specs.Diagnostic.{place_text, line_for, most};

// A file with its name.
#[derive(Clone, Copy)]
pub struct Source<'a> {
    pub name: &'a [u8],
    pub bytes: &'a [u8],
}

// Puts a file's name, the line and the column of a place, and the sentence of a number.
pub fn put_line(file: Source, place: usize, number: usize, out: &mut [u8]) -> usize
    requires { length file.name.now + most ≤ length out.old }
    ensures text { Wrote (line_for file.entry.name.now file.entry.bytes.now place number) out.old 0 out.new result }
    ensures fits { result ≤ length out.new }
{
    let position = program_file_position::position_of(file.bytes, place);
    let sentence = put_place(file.name, position.line, position.column, out);
    let end = program_refusal_words::put_reason(number, file.bytes.len() <= place, out, sentence);
    text::put_byte(b'\n', out, end)
}

// Puts a name, a line and a column: two numbers of at most twenty digits, and four bytes around them.
fn put_place(name: &[u8], line: usize, column: usize, out: &mut [u8]) -> usize
    requires { length name.now + most ≤ length out.old }
    ensures text { Wrote (place_text name.now line column) out.old 0 out.new result }
    ensures bound { result ≤ length name.now + 44 }
{
    let colon = text::put_bytes(name, out, 0);
    let first = text::put_byte(b':', out, colon);
    let second_colon = text::put_number(line, out, first);
    let second = text::put_byte(b':', out, second_colon);
    let third_colon = text::put_number(column, out, second);
    text::put_bytes(b": ", out, third_colon)
}
