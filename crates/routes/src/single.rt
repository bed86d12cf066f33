// The searches, each on its own, and the export beside the wish search.
use crate::outcome::Outcome;
use crate::problem::{LONGEST_CHOICE, Problem, UNSET};
use crate::{export, route};
use case_text::Refused;
use std::io;

// The greatest limit, and the greatest number of wishes.
const GREATEST: usize = 64;

// Nearest with its choice, and the wish search at its count, at one below and at 0; at the greatest limit
// and at 0 where it finds none.
pub fn nearest(to: &impl Print, problem: Problem) -> io::Result<()> {
    let mut choice = [UNSET; LONGEST_CHOICE];
    nearest_into(to, problem, &mut choice)
}

fn nearest_into(to: &impl Print, problem: Problem, choice: &mut [u8]) -> io::Result<()> {
    let answer = search_nearest::search(problem.n, problem.rules, problem.row, choice);
    print!(to; "; nearest")?;
    match answer {
        Err(refusal) => print!(to; " {}", Refused::from(refusal)),
        Ok(None) => {
            print!(to; " none")?;
            wished(to, problem, GREATEST)?;
            wished(to, problem, 0)
        }
        Ok(Some(count)) => {
            let outcome = Outcome::wished(problem, count, answer, choice);
            print!(to; " {count} {outcome}")?;
            found(to, problem, choice)?;
            around(to, problem, count)
        }
    }
}

// A choice, each setting as the number that stands for it, from setting 1 on: 1 for on, 0 for off.
fn found(to: &impl Print, problem: Problem, choice: &[u8]) -> io::Result<()> {
    let Some(settings) = choice.get(..problem.n) else {
        return print!(to; " no room");
    };
    print!(to; ", ")?;
    for setting in settings {
        print!(to; "{setting}")?;
    }
    Ok(())
}

fn around(to: &impl Print, problem: Problem, count: usize) -> io::Result<()> {
    wished(to, problem, count)?;
    if 0 < count {
        wished(to, problem, count - 1)?;
    }
    if 1 < count {
        wished(to, problem, 0)?;
    }
    Ok(())
}

// The wish search and the export at a limit.
pub fn wished(to: &impl Print, problem: Problem, d: usize) -> io::Result<()> {
    print!(to; "; limit {d} {}", route::first(problem, d))?;
    export::at_limit(to, problem, d)
}

// Plain search on the given rules, whatever wishes its choice breaks.
pub fn plain(to: &impl Print, problem: Problem) -> io::Result<()> {
    let mut choice = [UNSET; LONGEST_CHOICE];
    let answer = search_plain::search(problem.n, problem.rules, &mut choice);
    print!(to;
        "; plain {}",
        Outcome::plain(problem, GREATEST, answer, &choice)
    )
}
