// The three searches. Verdict 1 where a choice was found, and 0 where there is none.
ghost use Rattle.std.specs.Prelude.{◌≡◌, length};
ghost use Rattle.search_meaning.specs.Answers.{SearchMeans, PlainMeans, NearestMeans};
ghost use Rattle.search_meaning.specs.Searches.{search_reply, search_choice, plain_reply, plain_choice, nearest_reply, nearest_choice};
ghost use Rattle.c_answers.specs.Answers.{answer_of};
ghost use Rattle.c_answer_meaning.specs.Meaning.{NumbersMean};

use c_answers::Answer;

// A choice within the limit d; the value is the number of broken wishes.
#[unsafe(no_mangle)]
pub extern "C" fn powhanire_search(
    n: usize,
    rules: &[i32],
    row: &[u8],
    d: usize,
    choice: &mut [u8],
) -> Answer
    ensures answer { result ≡ answer_of (search_reply n rules.now row.now d (length choice.old)) }
    ensures output { choice.new ≡ search_choice n rules.now row.now d choice.old }
    ensures meaning { NumbersMean (SearchMeans n rules.now row.now d choice.new) result }
{
    c_answers::answer_of(search_wish::search(n, rules, row, d, choice))
}

// A choice that meets all rules.
#[unsafe(no_mangle)]
pub extern "C" fn powhanire_plain(n: usize, rules: &[i32], choice: &mut [u8]) -> Answer
    ensures answer { result ≡ answer_of (plain_reply n rules.now (length choice.old)) }
    ensures output { choice.new ≡ plain_choice n rules.now choice.old }
    ensures meaning { NumbersMean (PlainMeans n rules.now choice.new) result }
{
    c_answers::answer_of(search_plain::search(n, rules, choice))
}

// The first nearest choice; the value is the least number of broken wishes.
#[unsafe(no_mangle)]
pub extern "C" fn powhanire_nearest(
    n: usize,
    rules: &[i32],
    row: &[u8],
    choice: &mut [u8],
) -> Answer
    ensures answer { result ≡ answer_of (nearest_reply n rules.now row.now (length choice.old)) }
    ensures output { choice.new ≡ nearest_choice n rules.now row.now choice.old }
    ensures meaning { NumbersMean (NearestMeans n rules.now row.now choice.new) result }
{
    c_answers::answer_of(search_nearest::search(n, rules, row, choice))
}
