// What a program says on standard error where a call of the system failed: by what name, and why. No
// contract can say which bytes reach the system.
#![tactic(auto)]

use std::io;
use std::io::{Cursor, Write};

// Says that standard output failed, if it did.
pub fn say_unless_printed(err: &impl Print, printed: io::Result<()>) {
    if let Err(error) = printed {
        say_failure(err, b"standard output", &error);
    }
}

// Says why something failed that has a name. Where that fails too, nothing is left to say it on.
pub fn say_failure(err: &impl Print, name: &[u8], error: &io::Error) {
    let _ = write_failure(err, name, error);
}

fn write_failure(err: &impl Print, name: &[u8], error: &io::Error) -> io::Result<()> {
    let mut text = Cursor::new([0u8; 256]);
    write!(text, "{error}")?;
    let end = text.position() as usize;
    let bytes = text.into_inner();
    err.write_all(name)?;
    err.write_all(b": ")?;
    err.write_all(reason(&bytes[..end.min(256)]))?;
    err.write_all(b"\n")
}

// The words of an error's text, behind which std writes the error's number.
fn reason(text: &[u8]) -> &[u8] {
    for end in 0..text.len() {
        if text[end..].starts_with(b" (os error ") {
            return &text[..end];
        }
    }
    text
}
