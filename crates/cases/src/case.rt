// A case: a line of the name of a call and its values, which the crate case_text reads.
use case_calls::call::{BytesCall, Call, NumbersCall};
use case_calls::{Lent, bytes_case, nothing_case, numbers_case};
use case_text::{LONGEST_FILE, LONGEST_LIST, LONGEST_ROW, Values};
use std::io;

/// Runs the call of a case, and writes what it answers: None where the line is no case.
pub fn run(to: &impl Print, line: &[u8]) -> Option<io::Result<()>> {
    let (name, mut values) = Values::of(line);
    let call = Call::named(name)?;
    let has = call.form();
    let mut rules = [0; LONGEST_LIST];
    let mut row = [0; LONGEST_FILE];
    let mut choice = [0; LONGEST_ROW];
    let lent = Lent {
        n: if has.n { values.number()? } else { 0 },
        rules: values.list_if(has.rules, &mut rules)?,
        row: values.list_if(has.row, &mut row)?,
        d: if has.d { values.number()? } else { 0 },
        choice: values.list_if(has.choice, &mut choice)?,
    };
    if call.longest_row() < lent.row.len() {
        return None;
    }
    match call {
        Call::Nothing(call) => {
            if !values.is_done() {
                return None;
            }
            Some(nothing_case::answer(to, call, lent))
        }
        Call::Bytes(call) => with_bytes(to, call, lent, values),
        Call::Numbers(call) => with_numbers(to, call, lent, values),
    }
}

fn with_bytes(
    to: &impl Print,
    call: BytesCall,
    lent: Lent,
    mut values: Values,
) -> Option<io::Result<()>> {
    let mut space = [0; LONGEST_FILE];
    let out = values.list(&mut space)?;
    if !values.is_done() {
        return None;
    }
    Some(bytes_case::answer(to, call, lent, out))
}

fn with_numbers(
    to: &impl Print,
    call: NumbersCall,
    lent: Lent,
    mut values: Values,
) -> Option<io::Result<()>> {
    let mut space = [0; LONGEST_LIST];
    let out = values.list(&mut space)?;
    if !values.is_done() {
        return None;
    }
    Some(numbers_case::answer(to, call, lent, out))
}
