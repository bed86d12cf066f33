// The wishes' line, put into bytes that have room for it.
ghost use Rattle.std.specs.Prelude.{[], ◌∷◌, ◌≡◌, ◌+◌, ◌≤◌, length};
ghost use Rattle.limits.specs.Limits.{max_variables};
ghost use Rattle.writing.specs.Wrote.{Wrote};
ghost use Rattle.wish.specs.Wish.{wish_count};
ghost use Rattle.opb_pseudo_boolean.specs.Export.{wish_terms, wish_constraints};
ghost use Rattle.opb_format.specs.Opb.{terms_text, lines_text};

use crate::count;
use literal::Variable;

// Puts the term of a byte of the row: nothing where the variable is free.
fn put_wish(v: Variable, wish: u8, out: &mut [u8], at: usize) -> usize
    requires { (v.0 ≤ max_variables) × (at + length (terms_text (wish_terms v.0 (wish ∷ []))) ≤ length out.old) }
    ensures { Wrote (terms_text (wish_terms v.0 (wish ∷ []))) out.old at out.new result }
{
    if wish::is_wish(wish) {
        opb_parts::put_term(wish::weight_of(wish), wish::keeping_of(v, wish), out, at)
    } else {
        at
    }
}

// Puts the terms of the wishes, by rising variable.
fn put_terms(row: &[u8], out: &mut [u8], from: usize) -> usize
    requires { (length row.now ≤ max_variables) × (from + length (terms_text (wish_terms 1 row.now)) ≤ length out.old) }
    ensures { Wrote (terms_text (wish_terms 1 row.now)) out.old from out.new result }
{
    let mut at = from;
    for (i, wish) in row.iter().enumerate() {
        at = put_wish(Variable(i + 1), *wish, out, at);
    }
    at
}

// Puts the line of so many wishes with the limit d: nothing where there is no wish.
pub fn put_wishes(row: &[u8], wishes: usize, d: usize, out: &mut [u8], at: usize) -> usize
    requires { (wishes ≡ wish_count row.now) × (length row.now ≤ max_variables) × (at + length (lines_text (wish_constraints row.now d)) ≤ length out.old) }
    ensures { Wrote (lines_text (wish_constraints row.now d)) out.old at out.new result }
{
    if wishes == 0 {
        return at;
    }
    let end = put_terms(row, out, at);
    opb_parts::put_bound(count::wished_on(row), d, out, end)
}
