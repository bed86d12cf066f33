// Whether a call may start. A function for each set of values that calls are lent: its causes to
// refuse, one after another in their order.
#![tactic(auto)]

ghost use Rattle.std.specs.Prelude.{◌≡◌};
ghost use Rattle.refusal_causes.specs.Lent.{plain_problem, wishes_alone, wished_problem, exported_problem, chosen_problem};
ghost use Rattle.admission_steps.specs.Admission.{admission};

use admission_steps::Counts;
use refusal::Refusal;

// n and the rules.
pub fn admit_rules(n: usize, rules: &[i32]) -> Result<Counts, Refusal>
    ensures { result ≡ admission (plain_problem n rules.now) }
{
    let ranged = admission_steps::admit_range(n, 0);
    admission_steps::then_rules(ranged, n, rules)
}

// n, the row and the limit: no rules are as good as an empty list.
pub fn admit_row(n: usize, row: &[u8], d: usize) -> Result<Counts, Refusal>
    ensures { result ≡ admission (wishes_alone n row.now d) }
{
    let rules: [i32; 0] = [];
    admit_wishes(n, &rules, row, d)
}

// n, the rules, the row and the limit.
pub fn admit_wishes(n: usize, rules: &[i32], row: &[u8], d: usize) -> Result<Counts, Refusal>
    ensures { result ≡ admission (wished_problem n rules.now row.now d) }
{
    let ranged = admission_steps::admit_range(n, d);
    let listed = admission_steps::then_rules(ranged, n, rules);
    let wished = admission_steps::then_row(listed, row);
    let fitting = admission_steps::and_then(wished, refusal_causes::check_length(n, row.len()));
    admission_steps::then_size(fitting, n)
}

// The same, where every rule must have an entry.
pub fn admit_export(n: usize, rules: &[i32], row: &[u8], d: usize) -> Result<Counts, Refusal>
    ensures { result ≡ admission (exported_problem n rules.now row.now d) }
{
    let wished = admit_wishes(n, rules, row, d);
    admission_steps::and_then(wished, refusal_causes::check_entries(rules))
}

// n, the rules, the row and a given choice.
pub fn admit_choice(n: usize, rules: &[i32], row: &[u8], choice: &[u8]) -> Result<Counts, Refusal>
    ensures { result ≡ admission (chosen_problem n rules.now row.now choice.now) }
{
    let ranged = admission_steps::admit_range(n, 0);
    let listed = admission_steps::then_rules(ranged, n, rules);
    let wished = admission_steps::then_row(listed, row);
    let chosen = admission_steps::and_then(wished, refusal_causes::scan_choice(choice));
    let row_fits = admission_steps::and_then(chosen, refusal_causes::check_length(n, row.len()));
    let both_fit = admission_steps::and_then(
        row_fits,
        refusal_causes::check_length(n, choice.len()),
    );
    admission_steps::then_size(both_fit, n)
}
