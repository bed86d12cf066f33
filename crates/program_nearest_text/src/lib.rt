// What the program `nearest` prints: the least number of broken wishes and the first choice, in the lines
// that solvers print.
#![tactic(auto)]

ghost use Rattle.std.specs.Prelude.{◌≡◌, ◌≤◌, length};
ghost use Rattle.program_report.specs.Report.{fitted};
ghost use Rattle.program_solution_text.specs.Lines.{longest};
ghost use Rattle.program_nearest_text.specs.Printed.{nearest_text, without_limit, nearest_printed};
ghost use Rattle.std.proofs.Common.{rules};

use program_files::{Answer, ROW};

// Puts what is printed for a rule file and a wish file into the lent bytes, if it fits, and gives
// its length.
pub fn print_nearest(rules_file: &[u8], wish_file: &[u8], out: &mut [u8]) -> usize
    ensures length { result ≡ length (nearest_printed rules_file.now wish_file.now) }
    ensures output { out.new ≡ fitted (nearest_printed rules_file.now wish_file.now) out.old }
    ensures bound { result ≤ longest }
{
    program_files::print_for::<FirstNearest>(rules_file, wish_file, out)
}

// The first nearest choice, or the line of the refusal.
struct FirstNearest;

impl Answer for FirstNearest {
    ghost text = { without_limit };

    ghost longest = { longest };

    fn put(n: usize, rules: &[i32], row: &[u8], _d: usize, out: &mut [u8]) -> usize {
        put_nearest(n, rules, row, out)
    }

    ghost line_fits = { Prim.search rules };
}

fn put_nearest(n: usize, rules: &[i32], row: &[u8], out: &mut [u8]) -> usize
    ensures length { result ≡ length (nearest_text n rules.now row.now) }
    ensures output { out.new ≡ fitted (nearest_text n rules.now row.now) out.old }
    ensures bound { result ≤ longest }
{
    let mut choice = [0; ROW];
    match search_nearest::search(n, rules, row, &mut choice) {
        Err(r) => program_report::put_refusal(r, out),
        Ok(Some(broken)) => program_solution_text::put_found(broken, &choice[..n], out),
        Ok(None) => program_report::put_text(b"s UNSATISFIABLE\n", out),
    }
}
