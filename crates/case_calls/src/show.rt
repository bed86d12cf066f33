// Each call's answer, a line.
use c_answers::Answer;
use case_text::Refused;
use std::io;

// What a call answers where it is not refused.
pub fn given(answer: Answer) -> Result<Answer, Refused> {
    if answer.refusal == 0 {
        Ok(answer)
    } else {
        Err(Refused {
            number: answer.refusal,
            place: answer.place,
        })
    }
}

// The answer of a search that found no choice.
pub fn unfound(to: &impl Print, answer: Answer) -> io::Result<()> {
    match given(answer) {
        Ok(_) => println!(to; "none"),
        Err(refused) => println!(to; "{refused}"),
    }
}

pub fn checked(to: &impl Print, answer: Answer) -> io::Result<()> {
    one(
        to,
        if answer.verdict == 0 { "unmet" } else { "met" },
        answer,
    )
}

// An answer with one value, after a word.
pub fn one(to: &impl Print, word: &str, answer: Answer) -> io::Result<()> {
    match given(answer) {
        Ok(answer) => println!(to; "{word} {}", answer.value[0]),
        Err(refused) => println!(to; "{refused}"),
    }
}

pub fn read(to: &impl Print, answer: Answer) -> io::Result<()> {
    match given(answer) {
        Ok(answer) => {
            let [first, second, third] = answer.value;
            println!(to; "read {first} {second} {third}")
        }
        Err(refused) => println!(to; "{refused}"),
    }
}

pub fn rewritten(to: &impl Print, answer: Answer) -> io::Result<()> {
    match given(answer) {
        Ok(answer) => {
            let [variables, length, _] = answer.value;
            println!(to; " {variables} rewritten to {length}")
        }
        Err(refused) => println!(to; "{refused}"),
    }
}
