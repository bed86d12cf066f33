// The calls that write a list of numbers: the reader of the rule file, and rewriting.
use crate::call::NumbersCall;
use crate::{Lent, show};
use std::io;

pub fn answer(to: &impl Print, call: NumbersCall, lent: Lent, out: &mut [i32]) -> io::Result<()> {
    match call {
        NumbersCall::ReadRules => {
            let read = rule_file_reader::read_rules(lent.row, out);
            show::read(to, c_answers::answer_of(read))?;
        }
        NumbersCall::Rewrite => {
            let rewritten = totalizer_encoding::rewrite(lent.n, lent.rules, lent.row, lent.d, out);
            show::rewritten(to, c_answers::answer_of(rewritten))?;
        }
    }
    case_text::held(to, out)
}
