// The writer of the wish file: it checks and counts first, then writes, so that a refusal leaves the lent bytes alone.
#![tactic(auto)]

mod put;

ghost use Rattle.std.specs.Prelude.{◌≡◌, length};
ghost use Rattle.wish.specs.Wish.{wish_count};
ghost use Rattle.replies.specs.Written.{reply_of};
ghost use Rattle.refusal_causes.specs.Admitted.{Admitted};
ghost use Rattle.refusal_causes.specs.Lent.{wishes_alone};
ghost use Rattle.wish_file_writer.specs.Write.{write_reply, write_output};

use refusal::Refusal;
use wish_file::{HEADER_SIZE, WISH_SIZE};

// Writes a wish row and a limit as a file.
pub fn write_wishes(n: usize, row: &[u8], d: usize, file: &mut [u8]) -> Result<usize, Refusal>
    ensures reply { reply_of result ≡ write_reply n row.now d (length file.old) }
    ensures output { file.new ≡ write_output n row.now d file.old }
{
    let counts = admission::admit_row(n, row, d)?;
    write_row(n, row, d, counts.wishes, file)
}

// Writes an admitted row of so many wishes, if the lent bytes have room for it.
fn write_row(
    n: usize,
    row: &[u8],
    d: usize,
    wishes: usize,
    file: &mut [u8],
) -> Result<usize, Refusal>
    requires { Admitted (wishes_alone n row.now d) × (wishes ≡ wish_count row.now) }
    ensures reply { reply_of result ≡ write_reply n row.now d (length file.old) }
    ensures output { file.new ≡ write_output n row.now d file.old }
{
    let needed = HEADER_SIZE + WISH_SIZE * wishes;
    refusal::check_room(needed, file.len())?;
    let at = put::put_header(n, wishes, d, file);
    Ok(put::put_wishes(row, file, at))
}
