// The two routes of document 01, each as the one function that takes it.
use crate::outcome::Outcome;
use crate::problem::{LONGEST_CHOICE, Problem, UNSET};
use case_text::{LONGEST_FILE, LONGEST_LIST};

// The wish search.
pub fn first(problem: Problem, d: usize) -> Outcome {
    let mut choice = [UNSET; LONGEST_CHOICE];
    let answer = search_wish::search(problem.n, problem.rules, problem.row, d, &mut choice);
    Outcome::wished(problem, d, answer, &choice)
}

// Rewriting, the writer, the reader and plain search, with room for each.
pub fn second(problem: Problem, d: usize) -> Outcome {
    let mut rewritten = [0; LONGEST_LIST];
    let mut file = [0; LONGEST_FILE];
    let mut list = [0; LONGEST_LIST];
    let mut choice = [UNSET; LONGEST_CHOICE];
    let answer = agreement_second_route::second_route(
        problem.n,
        problem.rules,
        problem.row,
        d,
        &mut rewritten,
        &mut file,
        &mut list,
        &mut choice,
    );
    Outcome::plain(problem, d, answer, &choice)
}
