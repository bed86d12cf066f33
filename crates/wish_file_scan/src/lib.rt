// The first cause to refuse a wish file, found before anything is written.
#![tactic(auto)]

ghost use Rattle.std.specs.Prelude.{◌≡◌, ◌≤◌, length, drop};
ghost use Rattle.refusal.specs.Reply.{refused};
ghost use Rattle.wish_file.specs.Format.{bad_lines, reading};
ghost use Rattle.wish_file_scan.specs.Scan.{file_scan};

use refusal::Refusal;
use wish_file::{COLUMN_WIDTH, HEADER_SIZE, WISH_SIZE, WishHeader};

const HEADER_COLUMNS: usize = 3;

const WISH_COLUMNS: usize = 2;

// Scans the lines after line one, and the end.
fn scan_lines(file: &[u8], n: usize, wishes: usize) -> Result<(), Refusal>
    requires { 16 ≤ length file.now }
    ensures { refused result ≡ bad_lines n wishes 0 16 (drop 16 file.now) }
{
    let mut last: usize = 0;
    for i in 0..wishes {
        let at = HEADER_SIZE + WISH_SIZE * i;
        if !wish_file_lines::is_line(file, at, WISH_COLUMNS) {
            return refusal::refuse(8, at);
        }
        let number = wish_file_lines::field_at(file, at);
        let mark = wish_file_lines::field_at(file, at + COLUMN_WIDTH);
        if wish_file_faults::is_misfit(n, last, number, mark) {
            return refusal::refuse(10, at);
        }
        last = number;
    }
    let end = HEADER_SIZE + WISH_SIZE * wishes;
    if end < file.len() {
        return refusal::refuse(8, end);
    }
    Ok(())
}

// Scans a file from its first byte to its last: the numbers of line one, if there is no cause.
pub fn scan_file(file: &[u8]) -> Result<WishHeader, Refusal>
    ensures { result ≡ file_scan (reading file.now) }
{
    if !wish_file_lines::is_line(file, 0, HEADER_COLUMNS) {
        return Err(Refusal {
            number: 8,
            place: 0,
        });
    }
    let variables = wish_file_lines::field_at(file, 0);
    let wishes = wish_file_lines::field_at(file, COLUMN_WIDTH);
    let limit = wish_file_lines::field_at(file, 2 * COLUMN_WIDTH);
    if wish_file_faults::is_outside(variables, wishes, limit) {
        return Err(Refusal {
            number: 9,
            place: 0,
        });
    }
    scan_lines(file, variables, wishes)?;
    Ok(WishHeader {
        variables,
        wishes,
        limit,
    })
}
