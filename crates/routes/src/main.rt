// Runs the searches, the export to OPB and both routes on the rule books of standard input, and writes a line
// for each.
// What it must write was made from the results of solvers from elsewhere (tests/solvers).
#![tactic(auto)]

mod book;
mod books;
mod export;
mod outcome;
mod problem;
mod route;
mod single;
mod survey;

ghost use Rattle.std.specs.Prelude.{◌≡◌, length};

use std::io::Read;

// The input must be shorter than this.
const INPUT: usize = 1048576;

// Apart from `main`: its length is a law in its proof, and the check does not go through the elements.
fn input() -> [u8; INPUT]
    ensures { INPUT ≡ length result }
{
    [0; INPUT]
}

fn main(rt: HostRuntime) {
    let mut space = input();
    run(&rt.stdout(), &mut rt.stdin(), &mut space);
}

fn run(to: &impl Print, input: &mut impl Read, space: &mut [u8]) {
    let n = case_text::read_full(input, space);
    if n < space.len() {
        books::run(to, &space[..n]);
    } else {
        let _ = println!(to; "the input is too long");
    }
}
