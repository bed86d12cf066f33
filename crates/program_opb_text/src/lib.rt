// What the program opb prints: the rules, the wishes and the limit of two files as an OPB file.
#![tactic(auto)]

ghost use Rattle.std.specs.Prelude.{◌≡◌, ◌≤◌, length};
ghost use Rattle.opb_format.specs.Sizes.{longest};
ghost use Rattle.program_report.specs.Report.{fitted};
ghost use Rattle.program_opb_text.specs.Printed.{opb_text, opb_printed};
ghost use Rattle.std.proofs.Common.{rules};

use program_files::Answer;

// Puts what is printed for a rule file and a wish file into the lent bytes, if it fits, and gives
// its length.
pub fn print_opb(rules_file: &[u8], wish_file: &[u8], out: &mut [u8]) -> usize
    ensures length { result ≡ length (opb_printed rules_file.now wish_file.now) }
    ensures output { out.new ≡ fitted (opb_printed rules_file.now wish_file.now) out.old }
    ensures bound { result ≤ longest }
{
    program_files::print_for::<OpbFile>(rules_file, wish_file, out)
}

// The file, or the line of the refusal.
struct OpbFile;

impl Answer for OpbFile {
    ghost text = { opb_text };

    ghost longest = { longest };

    fn put(n: usize, rules: &[i32], row: &[u8], d: usize, out: &mut [u8]) -> usize {
        put_opb(n, rules, row, d, out)
    }

    ghost line_fits = { Prim.search rules };
}

// A refusal for want of room is none of the program's: it tells the file's length, as writing it does.
fn put_opb(n: usize, rules: &[i32], row: &[u8], d: usize, out: &mut [u8]) -> usize
    ensures length { result ≡ length (opb_text n rules.now row.now d) }
    ensures output { out.new ≡ fitted (opb_text n rules.now row.now d) out.old }
    ensures bound { result ≤ longest }
{
    match opb_writer::write_opb(n, rules, row, d, out) {
        Err(r) if r.number == 15 => r.place,
        Err(r) => program_report::put_refusal(r, out),
        Ok(length) => length,
    }
}
