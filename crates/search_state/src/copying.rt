// What is taken from the tables as a whole.
ghost use Rattle.std.specs.Prelude.{◌≡◌, ◌++◌, ◌≤◌, length, drop};

// Copies values to the front of a list of bytes.
pub fn copy_to(values: &[u8], choice: &mut [u8])
    requires { length values.now ≤ length choice.old }
    ensures { choice.new ≡ values.now ++ drop (length values.now) choice.old }
{
    choice[..values.len()].copy_from_slice(values);
}
