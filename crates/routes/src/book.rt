// One book: its two files are read, and all searches are run on what was read.
use crate::problem::Problem;
use crate::{single, survey};
use case_text::{LONGEST_LIST, LONGEST_ROW, Refused};
use std::io;

pub fn run(to: &impl Print, rule_file: &[u8], wish_file: &[u8], limits: usize) -> io::Result<()> {
    let mut rules = [0; LONGEST_LIST];
    let mut row = [0; LONGEST_ROW];
    let counts = match rule_file_reader::read_rules(rule_file, &mut rules) {
        Ok(counts) => counts,
        Err(refusal) => return print!(to; " {}", Refused::from(refusal)),
    };
    print!(to; ": settings {} rules {}", counts.variables, counts.clauses)?;
    let Some(rules) = rules.get(..counts.length) else {
        return print!(to; " no room");
    };
    let header = match wish_file_reader::read_wishes(wish_file, &mut row) {
        Ok(header) => header,
        Err(refusal) => return print!(to; " {}", Refused::from(refusal)),
    };
    print!(to; " wishes {} limit {}", header.wishes, header.limit)?;
    let Some(row) = row.get(..header.variables) else {
        return print!(to; " no room");
    };
    let problem = Problem {
        n: counts.variables,
        rules,
        row,
    };
    searched(to, problem, header.limit, limits)
}

fn searched(to: &impl Print, problem: Problem, limit: usize, limits: usize) -> io::Result<()> {
    single::nearest(to, problem)?;
    single::wished(to, problem, limit)?;
    single::plain(to, problem)?;
    survey::every(to, problem, limits)
}
