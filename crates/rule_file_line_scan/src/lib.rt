// The lines of a rule file: where a byte comes next, and where a comment line begins.
#![tactic(auto)]

ghost use Rattle.std.specs.Prelude.{cond, ◌≡◌, ◌+◌, ◌<◌, length, get_or, drop};
ghost use Rattle.rule_file.specs.Format.{before};
ghost use Rattle.rule_file.specs.Tokens.{line_start, between, opens_comment, position_at};

use rule_file::Class;

// Where a byte comes next from a place on: at the first that is `stop`, or at the file's end. From a place past
// the end it is that place.
pub fn find_byte(file: &[u8], from: usize, stop: u8) -> usize
    ensures { result ≡ from + length (before stop (drop from file.now)) }
{
    for i in from..file.len() {
        if file[i] == stop {
            return i;
        }
    }
    from.max(file.len())
}

// Whether a comment line begins at a place: `c`, as the first byte of its line.
pub fn opens_comment(file: &[u8], at: usize) -> bool
    requires { at < length file.now }
    ensures { result ≡ opens_comment (position_at file.now at) (get_or file.now at 0) }
{
    begins_line(file, at) && rule_file::class_of(file[at]) == Class::LetterC
}

// Whether a line begins at a place: at the file's beginning and behind a line feed.
fn begins_line(file: &[u8], at: usize) -> bool
    requires { at < length file.now }
    ensures { position_at file.now at ≡ cond result line_start between }
{
    at == 0 || file[at - 1] == b'\n'
}
