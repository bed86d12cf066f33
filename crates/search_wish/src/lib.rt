// The wish search: a choice that meets all rules and breaks at most d wishes, or none.
#![tactic(auto)]

ghost use Rattle.std.specs.Prelude.{◌≡◌, length};
ghost use Rattle.search_meaning.specs.Answers.{reply_of, SearchMeans};
ghost use Rattle.search_meaning.specs.Searches.{search_reply, search_choice};

use refusal::Refusal;

// Searches from what was lent; a choice that is found goes to the first n bytes of the lent choice.
pub fn search(
    n: usize,
    rules: &[i32],
    row: &[u8],
    d: usize,
    choice: &mut [u8],
) -> Result<Option<usize>, Refusal>
    ensures reply { reply_of result ≡ search_reply n rules.now row.now d (length choice.old) }
    ensures output { choice.new ≡ search_choice n rules.now row.now d choice.old }
    ensures meaning { SearchMeans n rules.now row.now d choice.new result }
{
    let admitted = admission::admit_wishes(n, rules, row, d);
    admission_steps::with_room(admitted, n, choice.len())?;
    search_state::answer_of(walk_root::walk_into(n, rules, row, d, choice))
}
