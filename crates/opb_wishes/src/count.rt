// The length of the wishes' line, before it is written.
ghost use Rattle.std.specs.Prelude.{[], ◌∷◌, ◌≡◌, ◌*◌, ◌≤◌, length};
ghost use Rattle.limits.specs.Limits.{max_variables};
ghost use Rattle.wish.specs.Wish.{wish_count, wished_on};
ghost use Rattle.opb_pseudo_boolean.specs.Export.{wish_terms, wish_constraints};
ghost use Rattle.opb_format.specs.Opb.{terms_text, lines_text};

use literal::Variable;

// What the wishes for on weigh.
pub fn wished_on(row: &[u8]) -> usize
    requires { length row.now ≤ max_variables }
    ensures { result ≡ wished_on row.now }
{
    row.iter().map(|wish| wish::on_weight_of(*wish)).sum()
}

// How many bytes the terms of the wishes take.
fn terms_length(row: &[u8]) -> usize
    requires { length row.now ≤ max_variables }
    ensures { (result ≡ length (terms_text (wish_terms 1 row.now))) × (result ≤ 44 * length row.now) }
{
    let mut total = 0;
    for (i, wish) in row.iter().enumerate() {
        total += wish_length(Variable(i + 1), *wish);
    }
    total
}

// How many bytes the term of a byte of the row takes: none where the variable is free.
fn wish_length(v: Variable, wish: u8) -> usize
    requires { v.0 ≤ max_variables }
    ensures { (result ≡ length (terms_text (wish_terms v.0 (wish ∷ [])))) × (result ≤ 44) }
{
    if wish::is_wish(wish) {
        opb_parts::term_length(wish::weight_of(wish), wish::keeping_of(v, wish))
    } else {
        0
    }
}

// How many bytes the line of so many wishes takes with the limit d: none where there is no wish.
pub fn wishes_length(row: &[u8], wishes: usize, d: usize) -> usize
    requires { (wishes ≡ wish_count row.now) × (length row.now ≤ max_variables) }
    ensures { (result ≡ length (lines_text (wish_constraints row.now d))) × (result ≤ 28187) }
{
    if wishes == 0 {
        return 0;
    }
    terms_length(row) + opb_parts::bound_length(wished_on(row), d)
}
