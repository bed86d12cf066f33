// Plain search: a choice that meets all rules, or none; up to the limits of a rule file.
#![tactic(auto)]

ghost use Rattle.std.specs.Prelude.{◌≡◌, length};
ghost use Rattle.search_meaning.specs.Answers.{reply_of, PlainMeans};
ghost use Rattle.search_meaning.specs.Searches.{plain_reply, plain_choice};

use refusal::Refusal;
use wish::FREE;

// Searches from what was lent; a choice that is found goes to the first n bytes of the lent choice.
pub fn search(n: usize, rules: &[i32], choice: &mut [u8]) -> Result<Option<usize>, Refusal>
    ensures reply { reply_of result ≡ plain_reply n rules.now (length choice.old) }
    ensures output { choice.new ≡ plain_choice n rules.now choice.old }
    ensures meaning { PlainMeans n rules.now choice.new result }
{
    let admitted = admission::admit_rules(n, rules);
    admission_steps::with_room(admitted, n, choice.len())?;
    let row = [FREE; 640];
    search_state::answer_of(walk_root::walk_into(n, rules, &row[..n], 0, choice))
}
