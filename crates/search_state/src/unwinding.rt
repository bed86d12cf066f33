// Back to the state before a try that found nothing.
ghost use Rattle.std.specs.Prelude.{◌≡◌, ◌-◌, length};
ghost use Rattle.std.proofs.Math.Seq.{slice};
ghost use Rattle.search_state.specs.Tried.{unwound, MayUnwind};

use crate::result::Tried;

// Where the newest of so many assigned variables stands on the trail; 0 where there is none.
pub fn newest_of(settled: usize) -> usize
    ensures { result ≡ settled - 1 }
{
    settled.saturating_sub(1)
}

// Passes on what a try came to; where that is nothing, it unassigns the variables of a part of the trail.
pub fn unwind(tried: Tried, from: usize, to: usize, trail: &[u16], a: &mut [u8]) -> Tried
    requires { MayUnwind tried.found to trail.now (length a.old) }
    ensures same { result ≡ tried }
    ensures state { a.new ≡ unwound tried.found (slice from to trail.now) a.old }
{
    if tried.found.is_none() {
        walk_propagation::undo(from, to, trail, a);
    }
    tried
}
