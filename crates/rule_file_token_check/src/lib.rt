// The first pass over a rule file: whether its tokens are good, and how many of their numbers are stored.
#![tactic(auto)]

ghost use Rattle.std.specs.Prelude.{◌||◌, ◌≡◌, ◌+◌, ◌≤◌, ltb, length};
ghost use Rattle.limits.specs.Limits.{max_variables, max_clauses, max_literals};
ghost use Rattle.refusal.specs.Reply.{cause};
ghost use Rattle.rule_list.specs.Sound.{unread};
ghost use Rattle.rule_file.specs.Format.{bad_tokens, rules_of};
ghost use Rattle.rule_file.specs.Tokens.{tokens_from};
ghost use Rattle.rule_file_token_check.specs.Check.{check_as};

use literal::Clause;
use refusal::Refusal;
use rule_file_token_stream::TokenStream;

// Checks the tokens from a place on, in a file of n variables and so many clauses: how many numbers the
// list has.
pub fn check_tokens(file: &[u8], from: usize, n: usize, count: usize) -> Result<usize, Refusal>
    requires { (n ≤ max_variables) × (count ≤ max_clauses) }
    ensures { result ≡ check_as (bad_tokens n count (length file.now) unread (tokens_from file.now from)) (length (rules_of (tokens_from file.now from))) }
{
    let mut stamps = rule_list::no_stamps();
    let mut clauses: usize = 0;
    let mut literals: usize = 0;
    let mut is_open = false;
    let mut tokens = TokenStream::from_offset(file, from);
    while let Some(token) = tokens.next_token()? {
        let clause = Clause(clauses + 1);
        let repeated = rule_list::is_repeat(&stamps, token.value, clause);
        if let Some(number) = rule_file_token_faults::fault_of(
            n,
            count,
            clauses,
            literals,
            token.value,
            repeated,
        ) {
            return Err(Refusal {
                number,
                place: token.place,
            });
        }
        if !repeated {
            if literal::closes(token.value) {
                clauses += 1;
                is_open = false;
            } else {
                rule_list::stamp(&mut stamps, token.value, clause);
                literals += 1;
                is_open = true;
            }
        }
    }
    finish(file.len(), count, clauses, literals, is_open)
}

// The end of the file: fewer clauses closed than there are to be, or one left open.
fn finish(
    size: usize,
    count: usize,
    clauses: usize,
    literals: usize,
    is_open: bool,
) -> Result<usize, Refusal>
    requires { (clauses ≤ max_clauses) × (literals ≤ max_literals) }
    ensures { result ≡ check_as (cause (ltb clauses count || is_open) 6 size) (clauses + literals) }
{
    if clauses < count || is_open {
        return Err(Refusal {
            number: 6,
            place: size,
        });
    }
    Ok(clauses + literals)
}
