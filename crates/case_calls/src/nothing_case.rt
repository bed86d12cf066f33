// The calls that write nothing: the checking call, and the walk of the wish search.
use crate::call::NothingCall;
use crate::{Lent, forks_case, show};
use std::io;

pub fn answer(to: &impl Print, call: NothingCall, lent: Lent) -> io::Result<()> {
    match call {
        NothingCall::Check => {
            let checked = checking::check(lent.n, lent.rules, lent.row, lent.choice);
            show::checked(to, c_answers::answer_of(checked))
        }
        NothingCall::Forks => forks_case::answer(to, lent),
    }
}
