// What a program prints for its two files.
ghost use Rattle.std.specs.Prelude.{◌≡◌, ◌≤◌, length, List, ℕ, ℤ};
ghost use Rattle.program_report.specs.Report.{fitted};
ghost use Rattle.program_files.specs.Problem.{problem, printed_for};

use crate::{FileError, LIST, ROW, read_problem};

// What a program answers for two good files: a text for a number of variables, a rule list, a wish row
// and a limit.
pub trait Answer {
    ghost text: { ℕ → List ℤ → List ℕ → ℕ → List ℕ };

    // No text is longer, nor is the line of a refusal.
    ghost longest: { ℕ };

    // Puts the text into the lent bytes, if it fits, and gives its length.
    fn put(n: usize, rules: &[i32], row: &[u8], d: usize, out: &mut [u8]) -> usize
        ensures length { result ≡ length (text n rules.now row.now d) }
        ensures output { out.new ≡ fitted (text n rules.now row.now d) out.old }
        ensures bound { result ≤ longest };

    ghost line_fits: { 42 ≤ longest };
}

// Puts what is printed for a rule file and a wish file into the lent bytes, if it fits, and gives
// its length.
pub fn print_for<A: Answer>(rules_file: &[u8], wish_file: &[u8], out: &mut [u8]) -> usize
    ensures length { result ≡ length (printed_for A.text (problem rules_file.now wish_file.now)) }
    ensures output { out.new ≡ fitted (printed_for A.text (problem rules_file.now wish_file.now)) out.old }
    ensures bound { result ≤ A.longest }
{
    let mut rules = [0; LIST];
    let mut row = [0; ROW];
    match read_problem(rules_file, wish_file, &mut rules, &mut row) {
        Err(FileError::TooLong) => 0,
        Err(FileError::Refused(r)) => program_report::put_refusal(r, out),
        Ok(sizes) => A::put(
            sizes.variables,
            &rules[..sizes.length],
            &row[..sizes.wished],
            sizes.limit,
            out,
        ),
    }
}
