// Bytes that are there already.
ghost use Rattle.std.specs.Prelude.{[], ◌∷◌, ◌+◌, ◌<◌, ◌≤◌, length};
ghost use Rattle.writing.specs.Wrote.{Wrote};

// Puts one byte.
pub fn put_byte(b: u8, out: &mut [u8], at: usize) -> usize
    requires { at < length out.old }
    ensures { Wrote (b ∷ []) out.old at out.new result }
{
    writing::put(b, out, at)
}

// Puts a copy of some bytes: one by one, so that those of a short text stand in the code, and not in read-only data.
pub fn put_bytes(bytes: &[u8], out: &mut [u8], from: usize) -> usize
    requires { from + length bytes.now ≤ length out.old }
    ensures { Wrote bytes.now out.old from out.new result }
{
    let mut at = from;
    for b in bytes {
        at = put_byte(*b, out, at);
    }
    at
}
