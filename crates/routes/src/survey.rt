// Both routes at every limit from 0 on.
ghost use Rattle.std.specs.Prelude.{◌<◌};

use crate::outcome::Outcome;
use crate::problem::Problem;
use crate::route;
use std::{fmt, io};

// Below `agreed` the routes agree. Below `none` they both find none, and from there to below `found`
// they both find a choice.
#[derive(Clone, Copy)]
struct Survey {
    agreed: usize,
    none: usize,
    found: usize,
}

pub fn every(to: &impl Print, problem: Problem, limits: usize) -> io::Result<()> {
    let mut survey = Survey {
        agreed: 0,
        none: 0,
        found: 0,
    };
    for d in 0..limits {
        let outcome = route::first(problem, d);
        if outcome == route::second(problem, d) {
            survey.see(d, outcome);
        }
    }
    print!(to; "; {survey}")
}

impl Survey {
    // Takes in what both routes say at a limit.
    fn see(&mut self, d: usize, outcome: Outcome)
        requires { d < usize.MAX }
    {
        match outcome {
            Outcome::Found => {
                self.agreed = extended(self.agreed, d);
                self.found = extended(self.found.max(self.none), d);
            }
            Outcome::Nothing => {
                self.agreed = extended(self.agreed, d);
                self.none = extended(self.none, d);
            }
            Outcome::Unmet | Outcome::Miscounted | Outcome::PastLimit | Outcome::Refused(_) => {}
        }
    }
}

// A bound that reaches to a limit is moved past it. One that a gap keeps from it stays.
fn extended(bound: usize, d: usize) -> usize
    requires { d < usize.MAX }
{
    if bound == d { d + 1 } else { bound }
}

impl fmt::Display for Survey {
    fn fmt<W: fmt::Write>(&self, f: &mut fmt::Formatter<W>) -> fmt::Result {
        let agree = Limits {
            from: 0,
            below: self.agreed,
        };
        let none = Limits {
            from: 0,
            below: self.none,
        };
        let found = Limits {
            from: self.none,
            below: self.found,
        };
        write!(f, "routes agree {agree}, none {none}, found {found}")
    }
}

// The limits from one to below another, written by the first and the last of them.
#[derive(Clone, Copy)]
struct Limits {
    from: usize,
    below: usize,
}

impl fmt::Display for Limits {
    fn fmt<W: fmt::Write>(&self, f: &mut fmt::Formatter<W>) -> fmt::Result {
        let from = self.from;
        if self.below <= from {
            return write!(f, "nowhere");
        }
        let last = self.below - 1;
        write!(f, "{from}..{last}")
    }
}
