// The wishes that every model within the limit keeps.
ghost use Rattle.std.specs.Prelude.{◌≡◌, true, ℕ, ◌≤◌, ◌<◌, length};
ghost use Rattle.literal.specs.Literal.{value};
ghost use Rattle.limits.specs.Limits.{max_variables};
ghost use Rattle.walk_propagation.specs.Searching.{Searching};
ghost use Rattle.nearest_cores.specs.Cores.{is_left};
ghost use Rattle.nearest_cores.specs.Narrow.{must_keep, keep_all};
ghost use Rattle.nearest_narrowing.specs.Keeping.{KeptTo, KeptOne};

use literal::Variable;
use walk_tally::Tally;

// Whether a variable is not taken, and breaking its wish would cost more than is left of the limit. The
// bound is taken from the limit, since a sum could run over.
fn must_keep(row: &[u8], d: usize, taken: &[u8], bound: usize, v: Variable) -> bool
    requires { bound ≤ d }
    ensures { result ≡ must_keep row.now d taken.now bound v.0 }
{
    literal::value_of(v, taken) == 0 && d - bound < wish::weight_of(literal::value_of(v, row))
}

// Assigns the wish of a variable, where it must be kept.
fn keep_wish(
    row: &[u8],
    d: usize,
    taken: &[u8],
    bound: usize,
    v: Variable,
    tally: Tally,
    a: &mut [u8],
    trail: &mut [u16],
) -> Tally
    requires searching { Searching (length a.old) row.now a.old trail.old tally.settled tally.broken × (length a.old ≤ max_variables) × (bound ≤ d) }
    requires v_nonzero { (0 < v.0) × (v.0 ≤ length a.old) × (is_left taken.now v.0 ≡ true → value a.old v.0 ≡ 2) }
    ensures { KeptOne (length a.old) row.now d taken.now bound v.0 tally a.old trail.old result a.new trail.new }
{
    if must_keep(row, d, taken, bound, v) {
        let wished = wish::wished_value(literal::value_of(v, row));
        return walk_propagation::assign_to(tally, row, v, wished, a, trail);
    }
    tally
}

// Assigns the wishes that must be kept.
pub fn keep_wishes(
    row: &[u8],
    d: usize,
    taken: &[u8],
    bound: usize,
    tally: Tally,
    a: &mut [u8],
    trail: &mut [u16],
) -> Tally
    requires searching { Searching (length a.old) row.now a.old trail.old tally.settled tally.broken × (length a.old ≤ max_variables) × (bound ≤ d) }
    requires by_index { (v : ℕ) → is_left taken.now v ≡ true → value a.old v ≡ 2 }
    ensures values { a.new ≡ keep_all row.now d taken.now bound a.old }
    ensures kept { KeptTo (length a.old) row.now tally a.old trail.old result a.new trail.new }
{
    let mut present = tally;
    for i in 0..a.len() {
        present = keep_wish(row, d, taken, bound, Variable(i + 1), present, a, trail);
    }
    present
}
