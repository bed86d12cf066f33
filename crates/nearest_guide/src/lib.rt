// A guide for completions: a row that asks of every wished variable its wish, and of a free one what a choice has.
#![tactic(auto)]

ghost use Rattle.std.specs.Prelude.{◌≡◌, true, ℕ, ◌≤◌, ◌<◌, length, get_or};
ghost use Rattle.wish.specs.Wish.{is_wish, wished_value};
ghost use Rattle.nearest_cores.specs.SearchRight.{Guides};

use literal::Variable;

// A byte of a guide: the wish, or where there is none one for the value.
fn guide_byte(wish: u8, value: u8) -> u8
    requires { value < 2 }
    ensures { is_wish wish ≡ true → wished_value result ≡ wished_value wish }
{
    if wish::is_wish(wish) {
        wish
    } else {
        wish::wish_for(value)
    }
}

// Writes the guide by a choice.
pub fn write_guide(row: &[u8], choice: &[u8], guide: &mut [u8])
    requires { (length guide.old ≤ length choice.now) × ((i : ℕ) → i < length guide.old → get_or choice.now i 0 < 2) }
    ensures { Guides (length guide.old) row.now guide.new }
{
    for i in 0..guide.len() {
        guide[i] = guide_byte(literal::value_of(Variable(i + 1), row), choice[i]);
    }
}
