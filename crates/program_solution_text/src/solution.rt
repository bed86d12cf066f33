// The lines of a choice that was found.
ghost use Rattle.std.specs.Prelude.{◌≡◌, ◌≤◌, length, Some};
ghost use Rattle.writing.specs.Wrote.{Wrote};
ghost use Rattle.program_report.specs.Report.{fitted};
ghost use Rattle.program_solution_text.specs.Lines.{longest, solution};

use crate::values;

// No text is longer.
const LONGEST: usize = 2048;

// The count, that it is the least, and the choice.
pub fn put_found(broken: usize, choice: &[u8], out: &mut [u8]) -> usize
    requires { length choice.now ≤ 256 }
    ensures { (result ≡ length (solution (Some broken) choice.now)) × (out.new ≡ fitted (solution (Some broken) choice.now) out.old) × (result ≤ longest) }
{
    let mut lines = [0; LONGEST];
    let n = put_lines(broken, choice, &mut lines);
    program_report::put_text(&lines[..n], out)
}

// Puts the lines.
fn put_lines(broken: usize, choice: &[u8], out: &mut [u8]) -> usize
    requires { (length choice.now ≤ 256) × (length (solution (Some broken) choice.now) ≤ length out.old) }
    ensures { Wrote (solution (Some broken) choice.now) out.old 0 out.new result }
{
    let count = text::put_bytes(b"o ", out, 0);
    let answer = text::put_number(broken, out, count);
    let first = text::put_bytes(b"\ns OPTIMUM FOUND\nv", out, answer);
    let end = values::put_values(choice, out, first);
    text::put_bytes(b" 0\n", out, end)
}
