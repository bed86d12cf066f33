// The export to OPB: it counts first, then writes, so that a refusal leaves the lent bytes alone.
#![tactic(auto)]

ghost use Rattle.std.specs.Prelude.{◌≡◌, ◌≤◌, length};
ghost use Rattle.replies.specs.Written.{reply_of};
ghost use Rattle.opb_writer.specs.Parts.{line_count};
ghost use Rattle.opb_writer.specs.Write.{write_reply, write_output};

use refusal::Refusal;

// Writes the rules of n variables, the wishes and the limit d as an OPB file.
pub fn write_opb(
    n: usize,
    rules: &[i32],
    row: &[u8],
    d: usize,
    file: &mut [u8],
) -> Result<usize, Refusal>
    ensures reply { reply_of result ≡ write_reply n rules.now row.now d (length file.old) }
    ensures output { file.new ≡ write_output n rules.now row.now d file.old }
{
    let counts = admission::admit_export(n, rules, row, d)?;
    let lines = line_count(counts.clauses, counts.wishes);
    let needed = opb_parts::header_length(n, lines)
        + opb_rules::rules_length(rules)
        + opb_wishes::wishes_length(row, counts.wishes, d);
    refusal::check_room(needed, file.len())?;
    let first = opb_parts::put_header(n, lines, file);
    let last = opb_rules::put_rules(rules, file, first);
    Ok(opb_wishes::put_wishes(row, counts.wishes, d, file, last))
}

// How many lines follow the first: one for each clause, and one more where there are wishes.
fn line_count(clauses: usize, wishes: usize) -> usize
    requires { clauses ≤ 9000 }
    ensures { result ≡ line_count clauses wishes }
{
    if wishes == 0 { clauses } else { clauses + 1 }
}
