// What the rewriting program prints: the rule file of the rewritten rules.
#![tactic(auto)]

ghost use Rattle.std.specs.Prelude.{◌≡◌, ◌<◌, ◌≤◌, length};
ghost use Rattle.replies.specs.Written.{reply_of};
ghost use Rattle.limits.specs.Limits.{max_variables};
ghost use Rattle.rule_list.specs.Sound.{SoundList};
ghost use Rattle.rule_file.specs.Written.{written};
ghost use Rattle.program_report.specs.Report.{fitted};
ghost use Rattle.program_rewrite_text.specs.Printed.{longest, rewritten_text, printed};
ghost use Rattle.program_rewrite_text.specs.FileSize.{size_of};
ghost use Rattle.std.proofs.Common.{rules};

use program_files::{Answer, LIST};
use refusal::Refusal;

// Puts what is printed for a rule file and a wish file into the lent bytes, if it fits, and gives
// its length.
pub fn print_rewritten(rules_file: &[u8], wish_file: &[u8], out: &mut [u8]) -> usize
    ensures length { result ≡ length (printed rules_file.now wish_file.now) }
    ensures output { out.new ≡ fitted (printed rules_file.now wish_file.now) out.old }
    ensures bound { result ≤ longest }
{
    program_files::print_for::<RewrittenRules>(rules_file, wish_file, out)
}

// The file of the rewritten rules, or the line of the refusal.
struct RewrittenRules;

impl Answer for RewrittenRules {
    ghost text = { rewritten_text };

    ghost longest = { longest };

    fn put(n: usize, rules: &[i32], row: &[u8], d: usize, out: &mut [u8]) -> usize {
        put_rewritten(n, rules, row, d, out)
    }

    ghost line_fits = { Prim.search rules };
}

fn put_rewritten(n: usize, rules: &[i32], row: &[u8], d: usize, out: &mut [u8]) -> usize
    ensures length { result ≡ length (rewritten_text n rules.now row.now d) }
    ensures output { out.new ≡ fitted (rewritten_text n rules.now row.now d) out.old }
    ensures bound { result ≤ longest }
{
    let mut list = [0; LIST];
    match totalizer_encoding::rewrite(n, rules, row, d, &mut list) {
        Err(r) => program_report::put_refusal(r, out),
        Ok(sizes) => put_file(sizes.variables, &list[..sizes.length], out),
    }
}

// The file of a sound list.
fn put_file(n: usize, rules: &[i32], out: &mut [u8]) -> usize
    requires { (0 < n) × (n ≤ max_variables) × (SoundList n rules.now) }
    ensures length { result ≡ length (written n rules.now) }
    ensures output { out.new ≡ fitted (written n rules.now) out.old }
    ensures bound { result ≤ longest }
{
    size_of(rule_file_writer::write_rules(n, rules, out))
}

// The length of a file that was written, or that had no room.
fn size_of(reply: Result<usize, Refusal>) -> usize
    ensures { result ≡ size_of (reply_of reply) }
{
    match reply {
        Err(r) => r.place,
        Ok(length) => length,
    }
}
