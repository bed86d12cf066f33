// The writer of the rule file: it counts first, then writes, so that a refusal leaves the lent bytes alone.
#![tactic(auto)]

mod count;
mod put;

ghost use Rattle.std.specs.Prelude.{◌≡◌, length};
ghost use Rattle.formula.specs.Formula.{clauses};
ghost use Rattle.replies.specs.Written.{reply_of};
ghost use Rattle.refusal_causes.specs.Admitted.{Admitted};
ghost use Rattle.refusal_causes.specs.Lent.{plain_problem};
ghost use Rattle.rule_file_writer.specs.Write.{write_reply, write_output};

use refusal::Refusal;

// Writes a rule list of n variables as a file.
pub fn write_rules(n: usize, rules: &[i32], file: &mut [u8]) -> Result<usize, Refusal>
    ensures reply { reply_of result ≡ write_reply n rules.now (length file.old) }
    ensures output { file.new ≡ write_output n rules.now file.old }
{
    let counts = admission::admit_rules(n, rules)?;
    write_sound(n, counts.clauses, rules, file)
}

// Writes an admitted list of so many clauses, if the lent bytes have room for it.
fn write_sound(n: usize, count: usize, rules: &[i32], file: &mut [u8]) -> Result<usize, Refusal>
    requires { Admitted (plain_problem n rules.now) × (count ≡ length (clauses rules.now)) }
    ensures reply { reply_of result ≡ write_reply n rules.now (length file.old) }
    ensures output { file.new ≡ write_output n rules.now file.old }
{
    let needed = count::header_length(n, count) + count::body_length(rules);
    refusal::check_room(needed, file.len())?;
    let at = put::put_header(n, count, file);
    Ok(put::put_body(rules, file, at))
}
