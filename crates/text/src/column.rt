// Numbers in columns.
ghost use Rattle.std.specs.Prelude.{◌+◌, ◌≤◌, length};
ghost use Rattle.text.specs.Text.{column};
ghost use Rattle.writing.specs.Wrote.{Wrote};

use crate::number;

// Puts a number right-justified in a column, which a number with more digits overruns.
pub fn put_column(v: usize, width: usize, out: &mut [u8], from: usize) -> usize
    requires { from + length (column width v) ≤ length out.old }
    ensures { Wrote (column width v) out.old from out.new result }
{
    let spaces = width.saturating_sub(number::number_length(v));
    let at = writing::put_times(b' ', spaces, out, from);
    number::put_number(v, out, at)
}
