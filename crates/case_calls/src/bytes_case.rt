// The calls that write bytes: the files, and the searches.
use crate::call::{BytesCall, FileCall};
use crate::{Lent, search_case, show};
use std::io;

pub fn answer(to: &impl Print, call: BytesCall, lent: Lent, out: &mut [u8]) -> io::Result<()> {
    match call {
        BytesCall::File(call) => file(to, call, lent, out),
        BytesCall::Search(call) => search_case::answer(to, call, lent, out),
    }
}

fn file(to: &impl Print, call: FileCall, lent: Lent, out: &mut [u8]) -> io::Result<()> {
    match call {
        FileCall::WriteRules => {
            let written = rule_file_writer::write_rules(lent.n, lent.rules, out);
            show::one(to, "written", c_answers::answer_of(written))?;
        }
        FileCall::ReadWishes => {
            let read = wish_file_reader::read_wishes(lent.row, out);
            show::read(to, c_answers::answer_of(read))?;
        }
        FileCall::WriteWishes => {
            let written = wish_file_writer::write_wishes(lent.n, lent.row, lent.d, out);
            show::one(to, "written", c_answers::answer_of(written))?;
        }
        FileCall::WriteOpb => {
            let written = opb_writer::write_opb(lent.n, lent.rules, lent.row, lent.d, out);
            show::one(to, "written", c_answers::answer_of(written))?;
        }
    }
    case_text::held(to, out)
}
