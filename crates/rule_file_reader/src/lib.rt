// The reader of the rule file: it checks and counts first, then fills, so that a refusal leaves the
// lent list alone.
#![tactic(auto)]

mod fill;

ghost use Rattle.std.specs.Prelude.{◌≡◌, ◌≤◌, length};
ghost use Rattle.limits.specs.Limits.{max_variables, max_clauses};
ghost use Rattle.rule_file.specs.Format.{outside};
ghost use Rattle.rule_file_reader.specs.Answers.{tokens_read};
ghost use Rattle.rule_file_reader.specs.Read.{replying, leaving, read_reply, read_output, reply_of};

use limits::{MAX_CLAUSES, MAX_VARIABLES};
use refusal::Refusal;
use rule_file_header::Header;

// What a file holds: N, C and the length of its list.
#[derive(Clone, Copy, Debug, PartialEq, Eq)]
pub struct RuleCounts {
    pub variables: usize,
    pub clauses: usize,
    pub length: usize,
}

// Reads a rule file into a list.
pub fn read_rules(file: &[u8], rules: &mut [i32]) -> Result<RuleCounts, Refusal>
    ensures reply { reply_of result ≡ read_reply file.now (length rules.old) }
    ensures output { rules.new ≡ read_output file.now rules.old }
{
    let place = rule_file_header::past_comments(file);
    let Some(header) = rule_file_header::header_at(file, place) else {
        return Err(Refusal { number: 1, place });
    };
    if is_outside(header.variables, header.clauses) {
        return Err(Refusal { number: 2, place });
    }
    read_tokens(file, header, rules)
}

// Whether a header's numbers are out of range.
fn is_outside(n: usize, count: usize) -> bool
    ensures { result ≡ outside n count }
{
    n == 0 || MAX_VARIABLES < n || MAX_CLAUSES < count
}

// Reads the tokens behind a header, if the list has room for their numbers.
fn read_tokens(file: &[u8], header: Header, rules: &mut [i32]) -> Result<RuleCounts, Refusal>
    requires { (header.variables ≤ max_variables) × (header.clauses ≤ max_clauses) }
    ensures reply { reply_of result ≡ replying (tokens_read header.variables header.clauses file.now header.next) (length rules.old) }
    ensures output { rules.new ≡ leaving (tokens_read header.variables header.clauses file.now header.next) rules.old }
{
    let length = rule_file_token_check::check_tokens(
        file,
        header.next,
        header.variables,
        header.clauses,
    )?;
    refusal::check_room(length, rules.len())?;
    fill::fill_rules(file, header.next, rules);
    Ok(RuleCounts {
        variables: header.variables,
        clauses: header.clauses,
        length,
    })
}
