// The three searches. Which choice the wish search and plain search find is left open, so the answer says
// what holds of it, and what the buffer holds past it; nearest's is the first (document 02, L5), so of its
// buffer nothing is left out.
use crate::call::SearchCall;
use crate::{Lent, show};
use c_answers::Answer;
use case_text::{Refused, held};
use std::io;

pub fn answer(to: &impl Print, call: SearchCall, lent: Lent, choice: &mut [u8]) -> io::Result<()> {
    let answer = called(call, lent, choice);
    if answer.verdict == 0 {
        show::unfound(to, answer)?;
        return held(to, choice);
    }
    let Some((found, past)) = choice.split_at_checked(lent.n) else {
        return println!(to; "found without room");
    };
    judge(to, call, lent, answer.value[0], found)?;
    match call {
        SearchCall::Wish | SearchCall::Plain => held(to, past),
        SearchCall::Nearest => held(to, choice),
    }
}

fn called(call: SearchCall, lent: Lent, choice: &mut [u8]) -> Answer {
    c_answers::answer_of(match call {
        SearchCall::Wish => search_wish::search(lent.n, lent.rules, lent.row, lent.d, choice),
        SearchCall::Plain => search_plain::search(lent.n, lent.rules, choice),
        SearchCall::Nearest => search_nearest::search(lent.n, lent.rules, lent.row, choice),
    })
}

// What holds of a choice of which the search said how many wishes it breaks.
fn judge(
    to: &impl Print,
    call: SearchCall,
    lent: Lent,
    broken: u64,
    choice: &[u8],
) -> io::Result<()> {
    match call {
        SearchCall::Wish => limited(to, checked(lent, choice), lent.d as u64, broken),
        SearchCall::Plain => {
            println!(to; "found {broken}")?;
            plain(to, lent.rules, choice)
        }
        SearchCall::Nearest => {
            println!(to; "found {broken}")?;
            show::checked(to, checked(lent, choice))
        }
    }
}

fn checked(lent: Lent, choice: &[u8]) -> Answer {
    c_answers::answer_of(checking::check(lent.n, lent.rules, lent.row, choice))
}

// Whether a choice keeps to the limit, and breaks as many wishes as the search said.
fn limited(to: &impl Print, checked: Answer, d: u64, broken: u64) -> io::Result<()> {
    let checked = match show::given(checked) {
        Ok(checked) => checked,
        Err(refused) => return println!(to; "{refused}"),
    };
    let count = checked.value[0];
    if checked.verdict == 0 {
        println!(to; "found, unmet {count}")
    } else if count != broken {
        println!(to; "found, miscounted {count}")
    } else if d < count {
        println!(to; "found, past the limit {count}")
    } else {
        println!(to; "found within the limit")
    }
}

// The checking call takes no rules of plain search's largest sizes, so a choice is looked at by the two
// parts of that call that do.
fn plain(to: &impl Print, rules: &[i32], choice: &[u8]) -> io::Result<()> {
    if let Err(refusal) = refusal_causes::scan_choice(choice) {
        println!(to; "{}", Refused::from(refusal))?;
    }
    if formula::is_model(rules, choice) {
        println!(to; "met")
    } else {
        println!(to; "unmet")
    }
}
