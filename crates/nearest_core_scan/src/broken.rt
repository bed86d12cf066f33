// The lowest broken wish that is not taken.
ghost use Rattle.std.specs.Prelude.{◌≡◌};
ghost use Rattle.nearest_cores.specs.Cores.{is_broken, first_broken};
ghost use Rattle.nearest_core_scan.specs.Lowest.{lowest_of};

use literal::Variable;

// Whether a variable is not taken and its wish broken.
fn is_broken(v: Variable, row: &[u8], taken: &[u8], a: &[u8]) -> bool
    ensures { result ≡ is_broken row.now taken.now a.now v.0 }
{
    literal::value_of(v, taken) == 0
        && wish::breaks_wish(literal::value_of(v, row), literal::value_of(v, a))
}

// The variable of the lowest such wish, where there is one: all wishes are looked through for it.
fn first_broken(row: &[u8], taken: &[u8], a: &[u8]) -> Option<Variable>
    ensures { result ≡ lowest_of (first_broken row.now taken.now a.now) }
{
    for i in 0..a.len() {
        let v = Variable(i + 1);
        if is_broken(v, row, taken, a) {
            return Some(v);
        }
    }
    None
}

// The same after a step before which there was none, by what is broken before and after it: where that is
// as much, there is none still, and nothing is read.
pub fn newly_broken(
    before: usize,
    after: usize,
    row: &[u8],
    taken: &[u8],
    a: &[u8],
) -> Option<Variable>
    requires { before ≡ after → first_broken row.now taken.now a.now ≡ 0 }
    ensures { result ≡ lowest_of (first_broken row.now taken.now a.now) }
{
    if before == after {
        return None;
    }
    first_broken(row, taken, a)
}
