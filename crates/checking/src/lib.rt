// The checking call: whether a choice meets all rules, and how many wishes it breaks.
#![tactic(auto)]

ghost use Rattle.std.specs.Prelude.{◌≡◌, ◌≤◌, Ok};
ghost use Rattle.wish.specs.Wish.{total_weight};
ghost use Rattle.limits.specs.Limits.{max_wishes};
ghost use Rattle.checking.specs.Check.{check_reply, judged, reply_of};

use refusal::Refusal;

// Whether a choice meets every rule, with the number of broken wishes.
#[derive(Clone, Copy, Debug, PartialEq, Eq)]
pub enum Checked {
    Met(usize),
    Unmet(usize),
}

// Checks a choice. Whatever is lent is checked first, so no earlier check is relied on.
pub fn check(n: usize, rules: &[i32], row: &[u8], choice: &[u8]) -> Result<Checked, Refusal>
    ensures { reply_of result ≡ check_reply n rules.now row.now choice.now }
{
    admission::admit_choice(n, rules, row, choice)?;
    Ok(judge(rules, row, choice))
}

fn judge(rules: &[i32], row: &[u8], choice: &[u8]) -> Checked
    requires { total_weight row.now ≤ max_wishes }
    ensures { reply_of (Ok result) ≡ judged rules.now row.now choice.now }
{
    let broken = distance::disagreement_of(row, choice);
    if formula::is_model(rules, choice) {
        Checked::Met(broken)
    } else {
        Checked::Unmet(broken)
    }
}
