// The rules' lines, put into bytes that have room for them.
ghost use Rattle.std.specs.Prelude.{map, ◌+◌, ◌≤◌, length};
ghost use Rattle.formula.specs.Formula.{clauses};
ghost use Rattle.writing.specs.Wrote.{Wrote};
ghost use Rattle.opb_pseudo_boolean.specs.Export.{term, rule_constraint};
ghost use Rattle.opb_format.specs.Opb.{terms_text, line_text, lines_text};

use crate::count;

// Puts the terms of a clause.
fn put_terms(clause: &[i32], out: &mut [u8], from: usize) -> usize
    requires { from + length (terms_text (map (term 1) clause.now)) ≤ length out.old }
    ensures { Wrote (terms_text (map (term 1) clause.now)) out.old from out.new result }
{
    let mut at = from;
    for x in clause {
        at = opb_parts::put_term(1, *x, out, at);
    }
    at
}

// Puts the line of a clause.
fn put_rule(clause: &[i32], out: &mut [u8], at: usize) -> usize
    requires { at + length (line_text (rule_constraint clause.now)) ≤ length out.old }
    ensures { Wrote (line_text (rule_constraint clause.now)) out.old at out.new result }
{
    let end = put_terms(clause, out, at);
    opb_parts::put_bound(1, count::negatives_of(clause), out, end)
}

// Puts the lines of a rule list.
pub fn put_rules(rules: &[i32], out: &mut [u8], first: usize) -> usize
    requires { first + length (lines_text (map rule_constraint (clauses rules.now))) ≤ length out.old }
    ensures { Wrote (lines_text (map rule_constraint (clauses rules.now))) out.old first out.new result }
{
    let mut at = first;
    let mut from = 0;
    while from < rules.len() {
        let end = formula::clause_end(rules, from);
        at = put_rule(&rules[from..end], out, at);
        from = end + 1;
    }
    at
}
