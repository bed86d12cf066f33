// What a search answered, with what the checking call says of the choice.
use crate::problem::Problem;
use case_text::Refused;
use checking::Checked;
use refusal::Refusal;
use std::fmt;

#[derive(Clone, Copy, Debug, PartialEq, Eq)]
pub enum Outcome {
    // The choice meets all rules, and breaks as many wishes as was said and no more than the limit.
    Found,
    Nothing,
    Unmet,
    Miscounted,
    PastLimit,
    Refused(Refusal),
}

impl Outcome {
    /// The outcome of a search that is lent wishes, and says how many of them its choice breaks.
    pub fn wished(
        problem: Problem,
        d: usize,
        answer: Result<Option<usize>, Refusal>,
        choice: &[u8],
    ) -> Outcome {
        match answer {
            Err(refusal) => Outcome::Refused(refusal),
            Ok(None) => Outcome::Nothing,
            Ok(Some(broken)) => match checked(problem, choice) {
                Ok(Checked::Met(count)) if count != broken => Outcome::Miscounted,
                checked => Outcome::judged(checked, d),
            },
        }
    }

    /// The outcome of plain search, which is lent no wishes and so must say that none is broken.
    pub fn plain(
        problem: Problem,
        d: usize,
        answer: Result<Option<usize>, Refusal>,
        choice: &[u8],
    ) -> Outcome {
        match answer {
            Err(refusal) => Outcome::Refused(refusal),
            Ok(None) => Outcome::Nothing,
            Ok(Some(0)) => Outcome::judged(checked(problem, choice), d),
            Ok(Some(_)) => Outcome::Miscounted,
        }
    }

    fn judged(checked: Result<Checked, Refusal>, d: usize) -> Outcome {
        match checked {
            Err(refusal) => Outcome::Refused(refusal),
            Ok(Checked::Unmet(_)) => Outcome::Unmet,
            Ok(Checked::Met(count)) if d < count => Outcome::PastLimit,
            Ok(Checked::Met(_)) => Outcome::Found,
        }
    }
}

// The checking call on the first n bytes of a choice, which may have more settings.
fn checked(problem: Problem, choice: &[u8]) -> Result<Checked, Refusal> {
    let settings = choice.get(..problem.n).unwrap_or(choice);
    checking::check(problem.n, problem.rules, problem.row, settings)
}

impl fmt::Display for Outcome {
    fn fmt<W: fmt::Write>(&self, f: &mut fmt::Formatter<W>) -> fmt::Result {
        match *self {
            Outcome::Found => write!(f, "found, met"),
            Outcome::Nothing => write!(f, "none"),
            Outcome::Unmet => write!(f, "found, unmet"),
            Outcome::Miscounted => write!(f, "found, miscounted"),
            Outcome::PastLimit => write!(f, "found, past the limit"),
            Outcome::Refused(refusal) => write!(f, "{}", Refused::from(refusal)),
        }
    }
}
