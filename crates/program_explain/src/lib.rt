// Says on standard error why a program refuses its files.
#![tactic(auto)]

ghost use Rattle.std.specs.Prelude.{◌≤◌, length};

use program_diagnostics::Source;

// Space for a path of 4,096 bytes and `most` (program_diagnostics/specs/Diagnostic.antt) behind it.
const SPACE: usize = 4330;

// Writes the line of two files, each with its name, if a program refuses them; its call may ask that every
// rule has entries. No path that a file is opened by is longer than 4,096 bytes.
pub fn explain_refusal(err: &impl Print, rules: Source, wishes: Source, asks_entries: bool)
    requires { (length rules.name.now ≤ 4096) × (length wishes.name.now ≤ 4096) }
{
    let mut line = [0; SPACE];
    let n = program_diagnostics::put_diagnostic(rules, wishes, asks_entries, &mut line);
    let _ = err.write_all(&line[..n]);
}
