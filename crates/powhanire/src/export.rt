// The export to OPB.
ghost use Rattle.std.specs.Prelude.{◌≡◌, length};
ghost use Rattle.opb_writer.specs.Write.{write_reply, write_output};
ghost use Rattle.c_answers.specs.Answers.{answer_of};

use c_answers::Answer;

// The value is the length of the file.
#[unsafe(no_mangle)]
pub extern "C" fn powhanire_write_opb(
    n: usize,
    rules: &[i32],
    row: &[u8],
    d: usize,
    file: &mut [u8],
) -> Answer
    ensures answer { result ≡ answer_of (write_reply n rules.now row.now d (length file.old)) }
    ensures output { file.new ≡ write_output n rules.now row.now d file.old }
{
    c_answers::answer_of(opb_writer::write_opb(n, rules, row, d, file))
}
