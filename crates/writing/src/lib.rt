// Elements written one after the other into a lent list that has room for them. Each function gives
// the place past what it wrote, so that the next one goes on there.
#![tactic(auto)]

ghost use Rattle.std.specs.Prelude.{[], ◌∷◌, ◌+◌, ◌<◌, ◌≤◌, length, replicate};
ghost use Rattle.writing.specs.Wrote.{Wrote};

// Writes an element.
pub fn put<T: Copy>(x: T, out: &mut [T], at: usize) -> usize
    requires { at < length out.old }
    ensures { Wrote (x ∷ []) out.old at out.new result }
{
    out[at] = x;
    at + 1
}

// Writes an element so many times.
pub fn put_times<T: Copy>(x: T, times: usize, out: &mut [T], from: usize) -> usize
    requires { from + times ≤ length out.old }
    ensures { Wrote (replicate times x) out.old from out.new result }
{
    let mut at = from;
    for _ in 0..times {
        at = put(x, out, at);
    }
    at
}

// Writes a copy of a list, one element after the other: for `copy_from_slice` the compiler calls C's `memmove`, which the
// archive does without.
pub fn put_all<T: Copy>(list: &[T], out: &mut [T], at: usize) -> usize
    requires { at + length list.now ≤ length out.old }
    ensures { Wrote list.now out.old at out.new result }
{
    for (i, x) in list.iter().enumerate() {
        put(*x, out, at + i);
    }
    at + list.len()
}
