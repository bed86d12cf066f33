// Rewriting into plain rules: the given rules, then clauses that let at most d wishes be broken. It
// counts first, then writes, so that a refusal leaves the lent list alone.
#![tactic(auto)]

ghost use Rattle.std.specs.Prelude.{◌≡◌, ◌≤◌, length, None};
ghost use Rattle.refusal.specs.Reply.{filled};
ghost use Rattle.replies.specs.Rewritten.{reply_of};
ghost use Rattle.admission_steps.specs.Admission.{admission};
ghost use Rattle.refusal_causes.specs.Admitted.{Admitted};
ghost use Rattle.refusal_causes.specs.Lent.{wished_problem};
ghost use Rattle.totalizer.specs.Totalizer.{rewritten};
ghost use Rattle.totalizer_encoding.specs.Rewrite.{rewritten_sizes, rewrite_reply, rewrite_output};

use admission_steps::Counts;
use refusal::Refusal;
use replies::Sizes;

// Rewrites a rule list of n variables and a wish row with the limit d.
pub fn rewrite(
    n: usize,
    rules: &[i32],
    row: &[u8],
    d: usize,
    out: &mut [i32],
) -> Result<Sizes, Refusal>
    ensures reply { reply_of result ≡ rewrite_reply n rules.now row.now d (length out.old) }
    ensures output { out.new ≡ rewrite_output n rules.now row.now d out.old }
{
    let counts = admit_wishes(n, rules, row, d)?;
    let needed = rules.len() + totalizer_at_most::length_of(counts.weight, d);
    refusal::check_room(needed, out.len())?;
    Ok(write(n, rules, row, d, out))
}

// In a frame of its own: the scan of the rules has a table, which takes no stack any more while the list is written.
#[inline(never)]
fn admit_wishes(n: usize, rules: &[i32], row: &[u8], d: usize) -> Result<Counts, Refusal>
    ensures { result ≡ admission (wished_problem n rules.now row.now d) }
{
    admission::admit_wishes(n, rules, row, d)
}

// Writes the rewritten list where it has room.
fn write(n: usize, rules: &[i32], row: &[u8], d: usize, out: &mut [i32]) -> Sizes
    requires { Admitted (wished_problem n rules.now row.now d) × (length (rewritten n rules.now row.now d) ≤ length out.old) }
    ensures sizes { result ≡ rewritten_sizes n rules.now row.now d }
    ensures output { out.new ≡ filled None (rewritten n rules.now row.now d) out.old }
{
    let mut found = [0; limits::MAX_WISHES];
    let m = totalizer_leaves::put_leaves(row, &mut found);
    let from = totalizer_output::put_all(rules, out, 0);
    let end = totalizer_at_most::put_at_most(&found[..m], n, d, out, from);
    Sizes {
        variables: end.last,
        length: end.at,
    }
}
