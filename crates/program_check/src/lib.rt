// Whether a program refuses its two files, and for what, without the work that it does on good ones.
#![tactic(auto)]

ghost use Rattle.std.specs.Prelude.{◌≡◌};
ghost use Rattle.program_files.specs.Problem.{problem};
ghost use Rattle.program_check.specs.Check.{lent_of, check_of};
ghost use Rattle.admission_steps.specs.Admission.{admission};

use admission_steps::Counts;
use program_files::{FileError, LIST, ROW};
use refusal::Refusal;

// Reads both files, and looks at what the call would be lent; some calls ask that every rule has entries.
pub fn check_files(rules_file: &[u8], wish_file: &[u8], asks_entries: bool) -> Result<(), FileError>
    ensures { result ≡ check_of asks_entries (problem rules_file.now wish_file.now) }
{
    let mut rules = [0; LIST];
    let mut row = [0; ROW];
    let sizes = program_files::read_problem(rules_file, wish_file, &mut rules, &mut row)?;
    check_call(
        sizes.variables,
        &rules[..sizes.length],
        &row[..sizes.wished],
        sizes.limit,
        asks_entries,
    )?;
    Ok(())
}

// What the call would be refused for.
fn check_call(
    n: usize,
    rules: &[i32],
    row: &[u8],
    d: usize,
    asks_entries: bool,
) -> Result<Counts, Refusal>
    ensures { result ≡ admission (lent_of asks_entries n rules.now row.now d) }
{
    if asks_entries {
        admission::admit_export(n, rules, row, d)
    } else {
        admission::admit_wishes(n, rules, row, d)
    }
}
