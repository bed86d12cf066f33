// `forks N RULES ROW D`: the walk of the wish search, with the forks that it makes. They are counted
// below the public calls, which do not tell them.
use crate::Lent;
use case_text::{LONGEST_ROW, Refused};
use search_state::Tried;
use std::io;

pub fn answer(to: &impl Print, lent: Lent) -> io::Result<()> {
    let mut choice = [0; LONGEST_ROW];
    walk(to, lent, &mut choice)
}

fn walk(to: &impl Print, lent: Lent, choice: &mut [u8]) -> io::Result<()> {
    let admitted = admission::admit_wishes(lent.n, lent.rules, lent.row, lent.d);
    match admission_steps::with_room(admitted, lent.n, choice.len()) {
        Err(refusal) => println!(to; "{}", Refused::from(refusal)),
        Ok(_) => {
            show(
                to,
                walk_root::walk_into(lent.n, lent.rules, lent.row, lent.d, choice),
            )
        }
    }
}

fn show(to: &impl Print, tried: Tried) -> io::Result<()> {
    let forks = tried.forks;
    if tried.found.is_some() {
        println!(to; "found after forks: {forks}")
    } else {
        println!(to; "none after forks: {forks}")
    }
}
