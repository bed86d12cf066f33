// The parts of a wish file, put into bytes that have room for them.
ghost use Rattle.std.specs.Prelude.{[], ◌∷◌, ◌+◌, ◌≤◌, length};
ghost use Rattle.writing.specs.Wrote.{Wrote};
ghost use Rattle.wish_file.specs.Format.{wish_lines};
ghost use Rattle.wish_file.specs.Layout.{line};
ghost use Rattle.wish_file.specs.Wishes.{wish_list};

use literal::Variable;
use wish_file::COLUMN_WIDTH;

// Puts line one.
pub fn put_header(n: usize, wishes: usize, d: usize, out: &mut [u8]) -> usize
    requires { length (line (n ∷ wishes ∷ d ∷ [])) ≤ length out.old }
    ensures { Wrote (line (n ∷ wishes ∷ d ∷ [])) out.old 0 out.new result }
{
    let second = text::put_column(n, COLUMN_WIDTH, out, 0);
    let third = text::put_column(wishes, COLUMN_WIDTH, out, second);
    let end = text::put_column(d, COLUMN_WIDTH, out, third);
    text::put_byte(b'\n', out, end)
}

// Puts the line of a variable's byte, if it is a wish.
fn put_wish(variable: Variable, wish: u8, out: &mut [u8], at: usize) -> usize
    requires { at + length (wish_lines (wish_list variable.0 (wish ∷ []))) ≤ length out.old }
    ensures { Wrote (wish_lines (wish_list variable.0 (wish ∷ []))) out.old at out.new result }
{
    if !wish::is_wish(wish) {
        return at;
    }
    let second = text::put_column(variable.0, COLUMN_WIDTH, out, at);
    let end = text::put_column(wish::wished_value(wish) as usize, COLUMN_WIDTH, out, second);
    text::put_byte(b'\n', out, end)
}

// Puts the lines of a row's wishes.
pub fn put_wishes(row: &[u8], out: &mut [u8], from: usize) -> usize
    requires { from + length (wish_lines (wish_list 1 row.now)) ≤ length out.old }
    ensures { Wrote (wish_lines (wish_list 1 row.now)) out.old from out.new result }
{
    let mut at = from;
    for (i, wish) in row.iter().enumerate() {
        at = put_wish(Variable(i + 1), *wish, out, at);
    }
    at
}
