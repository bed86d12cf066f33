// Runs the library's calls on the cases of standard input, and writes an answer for each. A line
// that starts with # is a label, and is written as it is. Any other line is a case: the name of the
// call, then its values, as the library case_text reads them. What is no case is
// answered too, so nothing is left out.
#![tactic(auto)]

mod case;

ghost use Rattle.std.specs.Prelude.{◌≡◌, length};

use std::io;
use std::io::Read;

// The input must be shorter than this.
const INPUT: usize = 1310720;

// Apart from `main`: its length is a law in its proof, and the check does not go through the elements.
fn input() -> [u8; INPUT]
    ensures { INPUT ≡ length result }
{
    [0; INPUT]
}

fn main(rt: HostRuntime) {
    let mut space = input();
    run(&rt.stdout(), &mut rt.stdin(), &mut space);
}

fn run(to: &impl Print, input: &mut impl Read, space: &mut [u8]) {
    let n = case_text::read_full(input, space);
    if n < space.len() {
        lines(to, &space[..n]);
    } else {
        let _ = println!(to; "the input is too long");
    }
}

// A write that fails is let go, with what is left of its line's answer: what is missing then shows where the
// output is compared.
fn lines(to: &impl Print, input: &[u8]) {
    for line in input.split_inclusive(|byte| *byte == b'\n') {
        let _ = answer(to, line.strip_suffix(b"\n").unwrap_or(line));
    }
}

fn answer(to: &impl Print, line: &[u8]) -> io::Result<()> {
    if line.starts_with(b"#") {
        to.write_all(line)?;
        return println!(to);
    }
    match case::run(to, line) {
        Some(written) => written,
        None => println!(to; "bad case"),
    }
}
