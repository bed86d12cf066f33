// The checking call.
ghost use Rattle.std.specs.Prelude.{◌≡◌};
ghost use Rattle.checking.specs.Check.{check_reply};
ghost use Rattle.c_answers.specs.Answers.{answer_of};

use c_answers::Answer;

// Verdict 1 where the choice meets all rules, 0 where not; the value is the number of broken wishes.
#[unsafe(no_mangle)]
pub extern "C" fn powhanire_check(n: usize, rules: &[i32], row: &[u8], choice: &[u8]) -> Answer
    ensures { result ≡ answer_of (check_reply n rules.now row.now choice.now) }
{
    c_answers::answer_of(checking::check(n, rules, row, choice))
}
