// Rules without entries, which the export to OPB refuses.
ghost use Rattle.std.specs.Prelude.{◌≡◌};
ghost use Rattle.formula.specs.Formula.{clauses};
ghost use Rattle.refusal.specs.Reply.{refused, cause_at};
ghost use Rattle.refusal_causes.specs.Empty.{empty_clause};

use refusal::Refusal;

// Whether every clause of a list has a literal.
pub fn check_entries(rules: &[i32]) -> Result<(), Refusal>
    ensures { refused result ≡ cause_at 16 (empty_clause 0 (clauses rules.now)) }
{
    let mut from = 0;
    while from < rules.len() {
        let end = formula::clause_end(rules, from);
        if end == from {
            return refusal::refuse(16, from);
        }
        from = end + 1;
    }
    Ok(())
}
