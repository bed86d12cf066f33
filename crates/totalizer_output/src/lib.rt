// Numbers written one after the other into a list that has room for them.
#![tactic(auto)]

ghost use Rattle.std.specs.Prelude.{[], ◌∷◌, ◌+◌, ◌≤◌, pos, length};
ghost use Rattle.writing.specs.Wrote.{Wrote};

pub use writing::{put, put_all, put_times};

// Writes a clause's last literal and its closing zero.
pub fn put_closed(x: i32, out: &mut [i32], at: usize) -> usize
    requires { at + 2 ≤ length out.old }
    ensures { Wrote (x ∷ pos 0 ∷ []) out.old at out.new result }
{
    out[at] = x;
    out[at + 1] = 0;
    at + 2
}
