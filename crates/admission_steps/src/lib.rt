// The steps of admitting a call: the first cause to refuse what it was lent, or how much that is, so
// that nothing is scanned or counted twice. The first step looks at the range of the numbers. Each
// other is handed what came before it: what is refused stays refused, and what is admitted may be
// refused for one more cause.
#![tactic(auto)]

ghost use Rattle.std.specs.Prelude.{◌≡◌};
ghost use Rattle.refusal.specs.Reply.{refused, cause_at, cause, too_short};
ghost use Rattle.rule_list.specs.Sound.{unread, bad_rule};
ghost use Rattle.refusal_causes.specs.Lent.{out_of_range, oversized};
ghost use Rattle.refusal_causes.specs.Sound.{bad_wish};
ghost use Rattle.admission_steps.specs.declared.Counts.{Counts};
ghost use Rattle.admission_steps.specs.Admission.{answer, no_counts, with_rule_counts, with_wish_counts, and_then, Ranged};

use refusal::Refusal;

// How many clauses, literals and wishes were lent, and what the wishes weigh.
#[derive(Clone, Copy, Debug, PartialEq, Eq)]
pub struct Counts {
    pub clauses: usize,
    pub literals: usize,
    pub wishes: usize,
    pub weight: usize,
}

// 14: n and the limit, before anything is counted.
pub fn admit_range(n: usize, d: usize) -> Result<Counts, Refusal>
    ensures { result ≡ answer (cause (out_of_range n d) 14 0) no_counts }
{
    refusal_causes::check_range(n, d)?;
    Ok(Counts {
        clauses: 0,
        literals: 0,
        wishes: 0,
        weight: 0,
    })
}

// 13: the rules, which are counted.
pub fn then_rules(a: Result<Counts, Refusal>, n: usize, rules: &[i32]) -> Result<Counts, Refusal>
    requires { Ranged n a }
    ensures { result ≡ and_then a (λ (k : Counts). answer (cause_at 13 (bad_rule n unread 0 rules.now)) (with_rule_counts rules.now k)) }
{
    let counts = a?;
    let size = rule_list::scan_rules(n, rules)?;
    Ok(Counts {
        clauses: size.clauses,
        literals: size.literals,
        ..counts
    })
}

// A cause by itself.
pub fn and_then(a: Result<Counts, Refusal>, verdict: Result<(), Refusal>) -> Result<Counts, Refusal>
    ensures { result ≡ and_then a (answer (refused verdict)) }
{
    let counts = a?;
    verdict?;
    Ok(counts)
}

// 13: the wish row, whose wishes are counted.
pub fn then_row(a: Result<Counts, Refusal>, row: &[u8]) -> Result<Counts, Refusal>
    ensures { result ≡ and_then a (λ (k : Counts). answer (cause_at 13 (bad_wish 0 0 row.now)) (with_wish_counts row.now k)) }
{
    let counts = a?;
    let size = refusal_causes::scan_row(row)?;
    Ok(Counts {
        wishes: size.wishes,
        weight: size.weight,
        ..counts
    })
}

// 12: the size, from what was counted.
pub fn then_size(a: Result<Counts, Refusal>, n: usize) -> Result<Counts, Refusal>
    ensures { result ≡ and_then a (λ (k : Counts). answer (cause (oversized n k.clauses k.literals) 12 0) k) }
{
    let counts = a?;
    refusal_causes::check_size(n, counts.clauses, counts.literals)?;
    Ok(counts)
}

// 15: the room that the call's output needs.
pub fn with_room(a: Result<Counts, Refusal>, needed: usize, room: usize) -> Result<Counts, Refusal>
    ensures { result ≡ and_then a (answer (too_short needed room)) }
{
    and_then(a, refusal::check_room(needed, room))
}
