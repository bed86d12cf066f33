// The call that rewrites into plain rules.
ghost use Rattle.std.specs.Prelude.{◌≡◌, length};
ghost use Rattle.totalizer_encoding.specs.Rewrite.{rewrite_reply, rewrite_output};
ghost use Rattle.c_answers.specs.Answers.{answer_of};

use c_answers::Answer;

// The values are the variables and the length of the rewritten list.
#[unsafe(no_mangle)]
pub extern "C" fn powhanire_rewrite(
    n: usize,
    rules: &[i32],
    row: &[u8],
    d: usize,
    rewritten: &mut [i32],
) -> Answer
    ensures answer { result ≡ answer_of (rewrite_reply n rules.now row.now d (length rewritten.old)) }
    ensures output { rewritten.new ≡ rewrite_output n rules.now row.now d rewritten.old }
{
    c_answers::answer_of(totalizer_encoding::rewrite(n, rules, row, d, rewritten))
}
