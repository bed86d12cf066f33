// The causes to refuse a number of a rule file's list, but for 3, which needs its token.
#![tactic(auto)]

ghost use Rattle.std.specs.Prelude.{◌≡◌};
ghost use Rattle.rule_file_token_faults.specs.Fault.{fault_of};

use limits::MAX_LITERALS;

// The cause to refuse a number of the list, if there is one: 6 where every clause is closed, 7 where no more
// literals may come and it does not repeat one of its clause, 4 above n.
pub fn fault_of(
    n: usize,
    count: usize,
    clauses: usize,
    literals: usize,
    x: i32,
    repeated: bool,
) -> Option<usize>
    ensures { result ≡ fault_of n count clauses literals x repeated }
{
    if count <= clauses {
        return Some(6);
    }
    if literal::closes(x) {
        return None;
    }
    let v = literal::variable_of(x).0;
    // A repeat is no further literal.
    let full = !repeated && MAX_LITERALS <= literals;
    if full {
        return Some(7);
    }
    if n < v {
        return Some(4);
    }
    None
}
