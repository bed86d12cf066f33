// A core that was found.
ghost use Rattle.std.specs.Prelude.{◌≡◌, ℕ, ◌^◌, ◌≤◌, ◌<◌, length, get_or};
ghost use Rattle.nearest_cores.specs.Cores.{least_weight, take_each};
ghost use Rattle.nearest_core_scan.specs.Closing.{Among, Closed};

use crate::progress::Progress;
use literal::Variable;
use walk_tally::Tally;

// Takes the variables of a core, and gives the least weight of its wishes.
pub fn close_core(row: &[u8], core: &[u16], taken: &mut [u8]) -> usize
    requires { Among (length taken.old) core.now }
    ensures least { result ≡ least_weight row.now core.now }
    ensures taken { taken.new ≡ take_each taken.old core.now }
{
    let mut least = wish::MAX_WEIGHT;
    for v in core {
        let number = *v as usize;
        taken[number - 1] = 1;
        let weight = wish::weight_of(literal::value_of(Variable(number), row));
        least = least.min(weight);
    }
    least
}

// Closes a core at the state whose tally is the base: the values are set back to it by the trail.
pub fn close_at(
    row: &[u8],
    base: Tally,
    to: usize,
    bound: usize,
    core: &[u16],
    trail: &[u16],
    a: &mut [u8],
    taken: &mut [u8],
) -> Progress
    requires among { Among (length taken.old) core.now × (bound < 2 ^ 32) }
    requires to_in_bounds { (to ≤ length trail.now) × ((j : ℕ) → j < to → (0 < get_or trail.now j 0) × (get_or trail.now j 0 ≤ length a.old)) }
    ensures { Closed row.now base to bound core.now trail.now a.old taken.old result a.new taken.new }
{
    walk_propagation::undo(base.settled, to, trail, a);
    let least = close_core(row, core, taken);
    Progress {
        tally: base,
        assumed: 0,
        bound: bound + least,
    }
}
