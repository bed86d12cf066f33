// The soundness of a rule list.
ghost use Rattle.std.specs.Prelude.{◌≡◌, ◌≤◌};
ghost use Rattle.limits.specs.Limits.{max_variables};
ghost use Rattle.rule_list.specs.Sound.{unread, bad_rule};
ghost use Rattle.rule_list.specs.Scans.{rule_scan};

use crate::stamps::{is_stamped, no_stamps, stamp};
use limits::{MAX_CLAUSES, MAX_LITERALS};
use literal::Clause;
use refusal::Unsound;

// How many clauses and literals a sound list has.
#[derive(Clone, Copy, Debug, PartialEq, Eq)]
pub struct ListSize {
    pub clauses: usize,
    pub literals: usize,
}

// Scans a rule list once: what a sound one holds, or its first bad index.
pub fn scan_rules(n: usize, rules: &[i32]) -> Result<ListSize, Unsound>
    requires { n ≤ max_variables }
    ensures { result ≡ rule_scan (bad_rule n unread 0 rules.now) rules.now }
{
    let mut stamps = no_stamps();
    let mut clauses: usize = 0;
    let mut literals: usize = 0;
    let mut is_open = false;
    for (place, &x) in rules.iter().enumerate() {
        let number = literal::variable_of(x).0;
        if number == 0 {
            if clauses == MAX_CLAUSES {
                return Err(Unsound { place });
            }
            clauses += 1;
            is_open = false;
        } else {
            if n < number {
                return Err(Unsound { place });
            }
            if literals == MAX_LITERALS {
                return Err(Unsound { place });
            }
            let clause = Clause(clauses + 1);
            if is_stamped(&stamps, x, clause) {
                return Err(Unsound { place });
            }
            stamp(&mut stamps, x, clause);
            literals += 1;
            is_open = true;
        }
    }
    if is_open {
        return Err(Unsound { place: rules.len() });
    }
    Ok(ListSize { clauses, literals })
}
