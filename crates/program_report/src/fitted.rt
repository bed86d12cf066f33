// A text that is there already.
ghost use Rattle.std.specs.Prelude.{◌≡◌, length};
ghost use Rattle.program_report.specs.Report.{fitted};

// Copies a text to the front of the lent bytes, and gives its length.
pub fn put_text(bytes: &[u8], out: &mut [u8]) -> usize
    ensures { (result ≡ length bytes.now) × (out.new ≡ fitted bytes.now out.old) }
{
    if out.len() < bytes.len() {
        return bytes.len();
    }
    text::put_bytes(bytes, out, 0)
}
