// The header of a rule file, and the comment lines before it.
#![tactic(auto)]

ghost use Rattle.std.specs.Prelude.{false, ◌≡◌, ◌≤◌, length, drop};
ghost use Rattle.rule_file.specs.Format.{past_comments, preamble, starts_with, header};
ghost use Rattle.rule_file_header.specs.Header.{header_as};

use rule_file::Class;

const PREAMBLE: [u8; 6] = [b'p', b' ', b'c', b'n', b'f', b' '];

// A header's two numbers and the place past it.
#[derive(Clone, Copy, Debug, PartialEq, Eq)]
pub struct Header {
    pub variables: usize,
    pub clauses: usize,
    pub next: usize,
}

// The place of the first line that is no comment.
pub fn past_comments(file: &[u8]) -> usize
    ensures { (result ≡ past_comments false 0 file.now) × (result ≤ length file.now) }
{
    let mut inside = false;
    for (i, b) in file.iter().enumerate() {
        if inside {
            inside = *b != b'\n';
        } else if rule_file::class_of(*b) == Class::LetterC {
            inside = true;
        } else {
            return i;
        }
    }
    file.len()
}

// Whether `p cnf ` stands at a place.
fn has_preamble(file: &[u8], at: usize) -> bool
    requires { at ≤ length file.now }
    ensures { result ≡ starts_with preamble (drop at file.now) }
{
    file[at..].starts_with(&PREAMBLE)
}

// The header at a place, if one stands there. Each field must end with its own byte: a space after N, a
// line feed after C.
pub fn header_at(file: &[u8], at: usize) -> Option<Header>
    requires { at ≤ length file.now }
    ensures { result ≡ header_as at (header (drop at file.now)) }
{
    if !has_preamble(file, at) {
        return None;
    }
    let n_from = at + PREAMBLE.len();
    let n_end = rule_file_line_scan::find_byte(file, n_from, b' ');
    let c_from = n_end + 1;
    let c_end = rule_file_line_scan::find_byte(file, c_from, b'\n');
    if file.len() <= c_end {
        return None;
    }
    let variables = decimal::number_of(&file[n_from..n_end])?;
    let clauses = decimal::number_of(&file[c_from..c_end])?;
    Some(Header {
        variables,
        clauses,
        next: c_end + 1,
    })
}
