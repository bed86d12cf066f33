// What a program writes on standard error where it refuses its files.
#![tactic(auto)]

mod line;
mod spot;

ghost use Rattle.std.specs.Prelude.{◌+◌, ◌≤◌, length};
ghost use Rattle.writing.specs.Wrote.{Wrote};
ghost use Rattle.program_diagnostics.specs.Diagnostic.{line_at, diagnostic, most};

pub use line::Source;
use program_files::FileError;
use spot::Spot;

// Puts the line that is said of two files, each with its name, into lent bytes, and gives its length: 0 if
// the files are good.
pub fn put_diagnostic(rules: Source, wishes: Source, asks_entries: bool, out: &mut [u8]) -> usize
    requires { (length rules.name.now + most ≤ length out.old) × (length wishes.name.now + most ≤ length out.old) }
    ensures text { Wrote (diagnostic asks_entries (record { rules_name = rules.entry.name.now; wish_name = wishes.entry.name.now; rules = rules.entry.bytes.now; wishes = wishes.entry.bytes.now })) out.old 0 out.new result }
    ensures fits { result ≤ length out.new }
{
    match program_check::check_files(rules.bytes, wishes.bytes, asks_entries) {
        Err(FileError::TooLong) => put_at(rules, wishes, spot::too_long(rules.bytes), 0, out),
        Err(FileError::Refused(r)) => {
            let spot = spot::spot_of(r.number, r.place, rules.bytes);
            put_at(rules, wishes, spot, r.number, out)
        }
        Ok(()) => 0,
    }
}

// Puts the line for a place of one of the files.
fn put_at(rules: Source, wishes: Source, spot: Spot, number: usize, out: &mut [u8]) -> usize
    requires { (length rules.name.now + most ≤ length out.old) × (length wishes.name.now + most ≤ length out.old) }
    ensures text { Wrote (line_at (record { rules_name = rules.entry.name.now; wish_name = wishes.entry.name.now; rules = rules.entry.bytes.now; wishes = wishes.entry.bytes.now }) spot number) out.old 0 out.new result }
    ensures fits { result ≤ length out.new }
{
    match spot {
        Spot::Rules(place) => line::put_line(rules, place, number, out),
        Spot::Wishes(place) => line::put_line(wishes, place, number, out),
    }
}
