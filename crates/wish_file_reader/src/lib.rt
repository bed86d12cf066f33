// The reader of the wish file: it goes through the file twice, first for a cause to refuse, then for
// the wishes, so that a refusal leaves the lent row alone.
#![tactic(auto)]

mod fill;

ghost use Rattle.std.specs.Prelude.{◌≡◌, length};
ghost use Rattle.wish_file_reader.specs.Read.{read_reply, read_output, reply_of};

use refusal::Refusal;
pub use wish_file::WishHeader;

// Reads a wish file into a row.
pub fn read_wishes(file: &[u8], row: &mut [u8]) -> Result<WishHeader, Refusal>
    ensures reply { reply_of result ≡ read_reply file.now (length row.old) }
    ensures output { row.new ≡ read_output file.now row.old }
{
    let header = wish_file_scan::scan_file(file)?;
    refusal::check_room(header.variables, row.len())?;
    fill::free_row(header.variables, row);
    fill::mark_row(file, header.wishes, row);
    Ok(header)
}
