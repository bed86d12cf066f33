// Back to an earlier state.
ghost use Rattle.std.specs.Prelude.{◌≡◌, ℕ, ◌≤◌, ◌<◌, length, get_or};
ghost use Rattle.std.proofs.Math.Seq.{slice};
ghost use Rattle.walk_propagation.specs.Trail.{undone};

// Unassigns the variables of a part of the trail, the last one first.
pub fn undo(from: usize, to: usize, trail: &[u16], a: &mut [u8])
    requires { (to ≤ length trail.now) × ((j : ℕ) → j < to → (0 < get_or trail.now j 0) × (get_or trail.now j 0 ≤ length a.old)) }
    ensures { a.new ≡ undone (slice from to trail.now) a.old }
{
    for k in (from..to).rev() {
        a[trail[k] as usize - 1] = 2;
    }
}
