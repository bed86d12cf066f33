// The tokens of a rule file as a struct of the file and a kept offset. Its method is thin:
// `rule_file_tokens` does the work, on the slice and the number.
#![tactic(auto)]

ghost use Rattle.std.specs.Prelude.{◌≡◌};
ghost use Rattle.rule_file.specs.Tokens.{tokens_from};
ghost use Rattle.rule_file_tokens.specs.NextToken.{next_of};
ghost use Rattle.rule_file_token_stream.specs.Past.{past};

use rule_file_tokens::{Element, Malformed};

// The tokens of a file from an offset on.
#[derive(Clone, Copy)]
pub struct TokenStream<'a> {
    pub file: &'a [u8],
    pub at: usize,
}

impl<'a> TokenStream<'a> {
    pub fn from_offset(file: &'a [u8], at: usize) -> TokenStream<'a>
        ensures { (result.file ≡ file.entry) × (result.at ≡ at) }
    {
        TokenStream { file, at }
    }

    // The first of the tokens; those that are left are the ones behind it.
    pub fn next_token(&mut self) -> Result<Option<Element>, Malformed>
        ensures first { result ≡ next_of (tokens_from self.old.file.now self.old.at) }
        ensures rest { (self.new.file ≡ self.old.file) × (self.new.at ≡ past result self.old.at) }
    {
        let token = rule_file_tokens::token_at(self.file, self.at)?;
        if let Some(element) = token {
            self.at = element.next;
        }
        Ok(token)
    }
}
