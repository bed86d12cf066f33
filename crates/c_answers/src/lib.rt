// The answer of any call as the struct that C takes.
#![tactic(auto)]

mod file_answers;
mod search_answers;

ghost use Rattle.std.specs.Prelude.{◌≡◌};
ghost use Rattle.refusal.specs.Reply.{Reply, refusing, answering};
ghost use Rattle.c_answers.specs.Answers.{answer_of, reply_by};

use refusal::Refusal;

// Document 01's number and place of a refusal, or the verdict and up to three values of an answer;
// whatever is not used is 0.
#[repr(C)]
#[derive(Clone, Copy)]
pub struct Answer {
    pub refusal: u64,
    pub place: u64,
    pub verdict: u64,
    pub value: [u64; 3],
}

// What a call gives where it is not refused: each kind of it has a verdict and values of its own.
pub trait Values {
    ghost reply: { Self → Reply };

    fn values(self) -> Answer
        ensures { result ≡ answer_of (reply self) };
}

// The answer of any call.
pub fn answer_of<T: Values>(given: Result<T, Refusal>) -> Answer
    ensures { result ≡ answer_of (reply_by T.reply given) }
{
    match given {
        Ok(values) => values.values(),
        Err(r) => refused(r),
    }
}

// The answer of a call that is refused.
fn refused(r: Refusal) -> Answer
    ensures { result ≡ answer_of (refusing r) }
{
    Answer {
        refusal: r.number as u64,
        place: r.place as u64,
        verdict: 0,
        value: [0, 0, 0],
    }
}

// The answer of a call with a verdict and three values.
fn answered(verdict: usize, first: usize, second: usize, third: usize) -> Answer
    ensures { result ≡ answer_of (answering verdict first second third) }
{
    Answer {
        refusal: 0,
        place: 0,
        verdict: verdict as u64,
        value: [first as u64, second as u64, third as u64],
    }
}
