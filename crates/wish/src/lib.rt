// What a byte of the wish row means. Only this crate looks at such a byte; the others ask it.
#![tactic(auto)]

ghost use Rattle.std.specs.Prelude.{◌≡◌, ◌≤◌, ◌<◌};
ghost use Rattle.wish.specs.Wish.{is_row_byte, is_wish, wish_for, wished_value, unwished_value, weight, cost, breaks, is_against, keeping, on_weight};

use literal::Variable;

// The byte of a free variable.
pub const FREE: u8 = 2;

// The greatest weight of a wish.
pub const MAX_WEIGHT: usize = 1;

// Whether a byte may stand in a row.
pub fn is_row_byte(wish: u8) -> bool
    ensures { result ≡ is_row_byte wish }
{
    wish <= FREE
}

// Whether a byte of a row is a wish, and its variable not free.
pub fn is_wish(wish: u8) -> bool
    ensures { result ≡ is_wish wish }
{
    wish < FREE
}

// The byte of a wish that asks a value.
pub fn wish_for(value: u8) -> u8
    requires { value < 2 }
    ensures { result ≡ wish_for value }
{
    value
}

// The wished value, off where there is no wish.
pub fn wished_value(wish: u8) -> u8
    ensures { result ≡ wished_value wish }
{
    if is_wish(wish) { wish } else { 0 }
}

// The value against the wish, off where there is no wish.
pub fn unwished_value(wish: u8) -> u8
    ensures { result ≡ unwished_value wish }
{
    if is_wish(wish) { 1 - wish } else { 0 }
}

// How much a byte counts: 1 for a wish, 0 for a free variable.
pub fn weight_of(wish: u8) -> usize
    ensures { result ≡ weight wish }
{
    if is_wish(wish) { 1 } else { 0 }
}

// What a value breaks of the wish at its variable: its weight where it is the other value, 0 elsewhere.
pub fn cost_of(wish: u8, value: u8) -> usize
    ensures { result ≡ cost wish value }
{
    if value == unwished_value(wish) {
        weight_of(wish)
    } else {
        0
    }
}

// Whether a value breaks a wish.
pub fn breaks_wish(wish: u8, value: u8) -> bool
    ensures { result ≡ breaks wish value }
{
    0 < cost_of(wish, value)
}

// Whether a literal goes against the wish of its variable.
pub fn is_against(x: i32, row: &[u8]) -> bool
    ensures { result ≡ is_against row.now x }
{
    breaks_wish(
        literal::value_of(literal::variable_of(x), row),
        literal::wanted_by(x),
    )
}

// The literal that keeps a wish. The bound is the greatest i32.
pub fn keeping_of(v: Variable, wish: u8) -> i32
    requires { v.0 ≤ 2147483647 }
    ensures { result ≡ keeping v.0 wish }
{
    literal::literal_of(v, wished_value(wish) == 1)
}

// What a byte adds to the weight of the wishes for on.
pub fn on_weight_of(wish: u8) -> usize
    ensures { result ≡ on_weight wish }
{
    if wished_value(wish) == 1 {
        weight_of(wish)
    } else {
        0
    }
}
