// The lines of a wish file, read.
#![tactic(auto)]

ghost use Rattle.std.specs.Prelude.{◌≡◌, ◌+◌, ◌≤◌, length, drop};
ghost use Rattle.wish_file.specs.Layout.{past_spaces, column_number};
ghost use Rattle.wish_file_lines.specs.Lines.{is_line, field};

use wish_file::COLUMN_WIDTH;

// How many spaces some bytes begin with.
fn leading_spaces(bytes: &[u8]) -> usize
    ensures { (result ≤ length bytes.now) × (past_spaces bytes.now ≡ drop result bytes.now) }
{
    for (i, b) in bytes.iter().enumerate() {
        if *b != b' ' {
            return i;
        }
    }
    bytes.len()
}

// The number in the column at a place, if there is one.
fn column_number(file: &[u8], at: usize) -> Option<usize>
    requires { at + 5 ≤ length file.now }
    ensures { result ≡ column_number (drop at file.now) }
{
    let end = at + COLUMN_WIDTH;
    let column = &file[at..end];
    let start = leading_spaces(column);
    decimal::number_of(&column[start..])
}

// Whether a line of so many columns begins at a place.
pub fn is_line(file: &[u8], from: usize, columns: usize) -> bool
    requires { from ≤ length file.now }
    ensures { result ≡ is_line columns (drop from file.now) }
{
    for i in 0..columns {
        let at = from + COLUMN_WIDTH * i;
        if file.len() - at < COLUMN_WIDTH {
            return false;
        }
        let Some(_) = column_number(file, at) else {
            return false;
        };
    }
    let end = from + COLUMN_WIDTH * columns;
    end < file.len() && file[end] == b'\n'
}

// The number in the column at a place of a line.
pub fn field_at(file: &[u8], at: usize) -> usize
    requires { at + 5 ≤ length file.now }
    ensures { result ≡ field (drop at file.now) }
{
    column_number(file, at).unwrap_or(0)
}
