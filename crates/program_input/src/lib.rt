// The files that a program reads. No contract can say which bytes a file has; these functions say how
// many of the lent bytes were filled.
#![tactic(auto)]

ghost use Rattle.std.specs.Prelude.{◌<◌, length, IfOk};
ghost use Rattle.program_input.specs.Filled.{IsPrefixLen, Filled, BothFilled};

use std::io::{ErrorKind, Read};
use std::rt::Files;
use std::{fs, io, str};

// How long the space for a file is: 65,536 bytes and one more, which shows that a file is longer.
pub const SPACE: usize = 65537;

// Reads a rule file and then a wish file, each to its end, and tells how many bytes each has, unless one
// could not be read.
pub fn read_files(
    files: &impl Files,
    err: &impl Print,
    rules_path: &[u8],
    wish_path: &[u8],
    rules: &mut [u8],
    wishes: &mut [u8],
) -> Option<(usize, usize)>
    requires { (65536 < length rules.old) × (65536 < length wishes.old) }
    ensures { BothFilled result rules.new wishes.new }
{
    let k = read_file(files, err, rules_path, rules)?;
    let w = read_file(files, err, wish_path, wishes)?;
    Some((k, w))
}

// Reads a file to its end, or as far as there is room: for one byte more than the 65,536 that document
// 01 allows a program's file, so that a longer file shows. Where that fails, a line on standard error
// has the file's name and why.
fn read_file(files: &impl Files, err: &impl Print, path: &[u8], buf: &mut [u8]) -> Option<usize>
    requires { 65536 < length buf.old }
    ensures { Filled result buf.new }
{
    match open_and_read(files, path, buf) {
        Ok(n) => Some(n),
        Err(error) => {
            program_failure::say_failure(err, path, &error);
            None
        }
    }
}

fn open_and_read(files: &impl Files, path: &[u8], buf: &mut [u8]) -> io::Result<usize>
    ensures { IfOk result (λ n. IsPrefixLen n buf.new) }
{
    let mut file = open(files, path)?;
    read_to_end(&mut file, buf)
}

// std opens only what is named by text.
fn open<R: Files>(files: &R, path: &[u8]) -> io::Result<R::File> {
    match str::from_utf8(path) {
        Ok(text) => fs::open(files, text),
        Err(_) => Err(io::Error::new(ErrorKind::InvalidInput, "file name is not UTF-8")),
    }
}

fn read_to_end(file: &mut impl Read, buf: &mut [u8]) -> io::Result<usize>
    ensures { IfOk result (λ n. IsPrefixLen n buf.new) }
{
    let mut at = 0;
    while at < buf.len() {
        let more = file.read(&mut buf[at..])?;
        if more == 0 {
            break;
        }
        at += more;
    }
    Ok(at)
}
