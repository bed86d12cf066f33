// The way through the wishes.
ghost use Rattle.std.specs.Prelude.{◌≡◌, ℕ, ◌^◌, ◌≤◌, ◌<◌, length, get_or, take};
ghost use Rattle.formula.specs.Formula.{clauses};
ghost use Rattle.limits.specs.Limits.{max_variables};
ghost use Rattle.walk_propagation.specs.Looking.{Following};
ghost use Rattle.walk_unit_queue.specs.Due.{NoneDue};
ghost use Rattle.nearest_cores.specs.Cores.{first_broken, scan as scan_of};
ghost use Rattle.nearest_core_scan.specs.Closing.{Among, BrokenThen};
ghost use Rattle.nearest_core_scan.specs.Scanning.{present, set_back, Scanning, Scanned};

use crate::assumable::{is_assumable, take_assigned};
use crate::assume::assume;
use crate::broken::newly_broken;
use crate::close::close_at;
use crate::progress::Progress;
use literal::Variable;
use walk_tally::Tally;

// The disjoint cores of a state to which unit propagation adds nothing: how much every model that extends it
// breaks at least, and which variables are taken. Wishes are assumed in the state's own space, and undone by
// the trail.
pub fn find_cores(
    rules: &[i32],
    arrangement: &[u16],
    row: &[u8],
    tally: Tally,
    a: &mut [u8],
    trail: &mut [u16],
    taken: &mut [u8],
    assumed: &mut [u16],
) -> usize
    requires following { Following rules.now arrangement.now row.now tally a.old trail.old × NoneDue (clauses rules.now) a.old }
    requires taken_len { (length taken.old ≡ length a.old) × (length a.old < length assumed.old) }
    ensures bound { result ≡ (scan_of (clauses rules.now) row.now a.old).bound }
    ensures taken { taken.new ≡ (scan_of (clauses rules.now) row.now a.old).taken }
    ensures state { a.new ≡ a.old }
    ensures trail { take tally.settled trail.new ≡ take tally.settled trail.old }
{
    take_assigned(a, taken);
    let mut progress = Progress {
        tally: tally,
        assumed: 0,
        bound: tally.broken,
    };
    for i in 0..a.len() {
        progress = scan_wish(
            rules,
            arrangement,
            row,
            tally,
            Variable(i + 1),
            progress,
            a,
            trail,
            taken,
            assumed,
        );
    }
    walk_propagation::undo(tally.settled, progress.tally.settled, trail, a);
    progress.bound
}

// One wish: where it can be assumed, it is. The base is the tally of the state, to which the values are set
// back where that gives a core.
fn scan_wish(
    rules: &[i32],
    arrangement: &[u16],
    row: &[u8],
    base: Tally,
    v: Variable,
    progress: Progress,
    a: &mut [u8],
    trail: &mut [u16],
    taken: &mut [u8],
    assumed: &mut [u16],
) -> Progress
    requires { Scanning rules.now arrangement.now row.now base (set_back base progress trail.old a.old) v.0 progress a.old trail.old taken.old assumed.old × (v.0 ≤ length a.old) }
    ensures { Scanned rules.now arrangement.now row.now base (set_back base progress trail.old a.old) v.0 (present progress a.old taken.old assumed.old) trail.old result a.new trail.new taken.new assumed.new }
{
    if !is_assumable(v, row, a, taken) {
        return progress;
    }
    let before = progress.tally;
    let at = progress.assumed;
    assumed[at] = v.0 as u16;
    let count = at + 1;
    match assume(rules, arrangement, row, before, v, a, trail) {
        Err(dead) => close_at(
            row,
            base,
            dead.tally.settled,
            progress.bound,
            &assumed[..count],
            trail,
            a,
            taken,
        ),
        Ok(t) => assume_unless_broken(
            row,
            base,
            before.broken,
            count,
            progress.bound,
            t,
            a,
            trail,
            taken,
            assumed,
        ),
    }
}

// No clause is falsified by what is assumed, of which the last is new: it is a core with the lowest wish that
// is broken now, where there is one.
fn assume_unless_broken(
    row: &[u8],
    base: Tally,
    before: usize,
    count: usize,
    bound: usize,
    tally: Tally,
    a: &mut [u8],
    trail: &[u16],
    taken: &mut [u8],
    assumed: &mut [u16],
) -> Progress
    requires a_value { before ≡ tally.broken → first_broken row.now taken.old a.old ≡ 0 }
    requires among { Among (length taken.old) (take count assumed.old) × (count < length assumed.old) × (length taken.old ≡ length a.old) × (length a.old ≤ max_variables) × (bound < 2 ^ 32) }
    requires settled_in_bounds { (tally.settled ≤ length trail.now) × ((j : ℕ) → j < tally.settled → (0 < get_or trail.now j 0) × (get_or trail.now j 0 ≤ length a.old)) }
    ensures { BrokenThen row.now base count bound tally trail.now a.old taken.old assumed.old result a.new taken.new assumed.new (first_broken row.now taken.old a.old) }
{
    match newly_broken(before, tally.broken, row, taken, a) {
        None => Progress {
            tally: tally,
            assumed: count,
            bound: bound,
        },
        Some(v) => {
            assumed[count] = v.0 as u16;
            let end = count + 1;
            close_at(
                row,
                base,
                tally.settled,
                bound,
                &assumed[..end],
                trail,
                a,
                taken,
            )
        }
    }
}
