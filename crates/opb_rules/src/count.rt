// The length of the rules' lines, before they are written.
ghost use Rattle.std.specs.Prelude.{map, ◌≡◌, ◌+◌, ◌*◌, ◌≤◌, length};
ghost use Rattle.formula.specs.Formula.{clauses};
ghost use Rattle.opb_pseudo_boolean.specs.Export.{term, negatives, rule_constraint};
ghost use Rattle.opb_format.specs.Opb.{terms_text, line_text, lines_text};

// How many literals of a clause are negative.
pub fn negatives_of(clause: &[i32]) -> usize
    ensures { result ≡ negatives clause.now }
{
    // no chain: its `filter` branches at each entry, and senses come as they like
    let mut count = 0;
    for x in clause {
        if literal::wanted_by(*x) == 0 {
            count += 1;
        }
    }
    count
}

// How many bytes the terms of a clause take.
fn terms_length(clause: &[i32]) -> usize
    requires { length clause.now ≤ 40000 }
    ensures { (result ≡ length (terms_text (map (term 1) clause.now))) × (result ≤ 44 * length clause.now) }
{
    let mut total = 0;
    for x in clause {
        total += opb_parts::term_length(1, *x);
    }
    total
}

// How many bytes the line of a clause takes.
fn rule_length(clause: &[i32]) -> usize
    requires { length clause.now ≤ 40000 }
    ensures { (result ≡ length (line_text (rule_constraint clause.now))) × (result ≤ 44 * length clause.now + 27) }
{
    terms_length(clause) + opb_parts::bound_length(1, negatives_of(clause))
}

// How many bytes the lines of a rule list take.
pub fn rules_length(rules: &[i32]) -> usize
    requires { length rules.now ≤ 40000 }
    ensures { (result ≡ length (lines_text (map rule_constraint (clauses rules.now)))) × (result ≤ 1760044) }
{
    let mut total = 0;
    let mut from = 0;
    while from < rules.len() {
        let end = formula::clause_end(rules, from);
        total += rule_length(&rules[from..end]);
        from = end + 1;
    }
    total
}
