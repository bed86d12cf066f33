// The second pass over a rule file: its numbers, put into a list that has room for them.
ghost use Rattle.std.specs.Prelude.{◌≡◌, ◌≤◌, length};
ghost use Rattle.std.proofs.lemmas.List.Edits.{sets};
ghost use Rattle.rule_file.specs.Format.{rules_of};
ghost use Rattle.rule_file.specs.Tokens.{tokens_from};
ghost use Rattle.rule_file_reader.specs.Passes.{FoundGood};

use literal::Clause;
use rule_file_token_stream::TokenStream;

// Fills a list with the numbers of the tokens from a place on, which were found good. A repeat is left
// out.
pub fn fill_rules(file: &[u8], from: usize, rules: &mut [i32])
    requires { FoundGood (tokens_from file.now from) × (length (rules_of (tokens_from file.now from)) ≤ length rules.old) }
    ensures { rules.new ≡ sets rules.old 0 (rules_of (tokens_from file.now from)) }
{
    let mut stamps = rule_list::no_stamps();
    let mut clauses: usize = 0;
    let mut i = 0;
    let mut tokens = TokenStream::from_offset(file, from);
    while let Ok(Some(token)) = tokens.next_token() {
        let clause = Clause(clauses + 1);
        if !rule_list::is_repeat(&stamps, token.value, clause) {
            rules[i] = token.value;
            i += 1;
            if literal::closes(token.value) {
                clauses += 1;
            } else {
                rule_list::stamp(&mut stamps, token.value, clause);
            }
        }
    }
}
