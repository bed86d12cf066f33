// Where a rule file that was read has its first rule without entries.
#![tactic(auto)]

ghost use Rattle.std.specs.Prelude.{false, ◌≡◌, length};
ghost use Rattle.rule_file.specs.Tokens.{tokens_from};
ghost use Rattle.program_empty_rule.specs.Empty.{empty_among, empty_rule};

use rule_file_token_stream::TokenStream;

// The place of the 0 that closes the first rule without entries. It is asked of files that were read and
// have one; where none comes first, it is the place where the search ends: the file's end, a malformed
// token, or where the header should be.
pub fn find_empty(file: &[u8]) -> usize
    ensures { result ≡ empty_rule file.now }
{
    let place = rule_file_header::past_comments(file);
    match rule_file_header::header_at(file, place) {
        None => place,
        Some(header) => empty_from(file, header.next),
    }
}

// The same among the tokens from a place on.
fn empty_from(file: &[u8], from: usize) -> usize
    ensures { result ≡ empty_among false (length file.now) (tokens_from file.now from) }
{
    let mut filled = false;
    let mut tokens = TokenStream::from_offset(file, from);
    loop {
        match tokens.next_token() {
            Err(malformed) => return malformed.place,
            Ok(None) => return file.len(),
            Ok(Some(token)) => {
                let closes = literal::closes(token.value);
                if closes && !filled {
                    return token.place;
                }
                filled = !closes;
            }
        }
    }
}
