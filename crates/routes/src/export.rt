// The export to OPB at a limit: the length of its file and a sum of its bytes, or its refusal.
use crate::problem::Problem;
use case_text::{LONGEST_FILE, Refused};
use std::io;

pub fn at_limit(to: &impl Print, problem: Problem, d: usize) -> io::Result<()> {
    let mut file = [0; LONGEST_FILE];
    into(to, problem, d, &mut file)
}

fn into(to: &impl Print, problem: Problem, d: usize, file: &mut [u8]) -> io::Result<()> {
    print!(to; ", OPB")?;
    match opb_writer::write_opb(problem.n, problem.rules, problem.row, d, file) {
        Err(refusal) => print!(to; " {}", Refused::from(refusal)),
        Ok(length) => match file.get(..length) {
            Some(text) => print!(to; " of {length} bytes, sum {}", case_text::sum(text)),
            None => print!(to; " no room"),
        },
    }
}
