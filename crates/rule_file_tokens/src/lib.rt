// The tokens of a rule file.
#![tactic(auto)]

mod signed;

ghost use Rattle.std.specs.Prelude.{◌≡◌, ◌+◌, length, drop};
ghost use Rattle.refusal.specs.Reply.{refusal};
ghost use Rattle.rule_file.specs.Tokens.{leading, in_token, tokens_from};
ghost use Rattle.rule_file_tokens.specs.NextToken.{next_of, first_place};

use refusal::Refusal;
use rule_file::Class;

// A number of the list at a place, with the offset past it.
#[derive(Clone, Copy, Debug, PartialEq, Eq)]
pub struct Element {
    pub place: usize,
    pub value: i32,
    pub next: usize,
}

// A malformed token, by its place.
#[derive(Clone, Copy, Debug, PartialEq, Eq)]
pub struct Malformed {
    pub place: usize,
}

impl From<Malformed> for Refusal {
    ghost from_gives = { λ malformed r. r ≡ refusal 3 malformed.place };

    fn from(malformed: Malformed) -> Refusal {
        Refusal {
            number: 3,
            place: malformed.place,
        }
    }
}

// The next token from an offset on, which is past the header or a token; nothing where no token is left.
pub fn token_at(file: &[u8], at: usize) -> Result<Option<Element>, Malformed>
    ensures { result ≡ next_of (tokens_from file.now at) }
{
    let place = token_start(file, at);
    if file.len() <= place {
        return Ok(None);
    }
    let next = token_end(file, place);
    match signed::signed_of(&file[place..next]) {
        Some(value) => Ok(Some(Element { place, value, next })),
        None => Err(Malformed { place }),
    }
}

// Where the first token from an offset on begins, or the file's length if none does. Blanks and comment
// lines are passed over here.
fn token_start(file: &[u8], from: usize) -> usize
    ensures { result ≡ first_place (length file.now) (tokens_from file.now from) }
{
    let mut i = from;
    while i < file.len() {
        if rule_file_line_scan::opens_comment(file, i) {
            i = rule_file_line_scan::find_byte(file, i, b'\n');
        } else if rule_file::class_of(file[i]) == Class::Blank {
            i += 1;
        } else {
            return i;
        }
    }
    file.len()
}

// Where the token that begins at an offset ends.
fn token_end(file: &[u8], from: usize) -> usize
    ensures { result ≡ from + length (leading in_token (drop from file.now)) }
{
    for i in from..file.len() {
        if rule_file::class_of(file[i]) == Class::Blank {
            return i;
        }
    }
    from.max(file.len())
}
