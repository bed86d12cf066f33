// The row of a wish file that was found good.
ghost use Rattle.std.specs.Prelude.{◌++◌, ◌≡◌, ◌≤◌, length, drop, replicate};
ghost use Rattle.wish.specs.Wish.{free_byte};
ghost use Rattle.wish_file.specs.Format.{wishes_in};
ghost use Rattle.wish_file.specs.Wishes.{marked, Rising};

use wish::FREE;
use wish_file::{COLUMN_WIDTH, HEADER_SIZE, WISH_SIZE};

// Leaves n variables free.
pub fn free_row(n: usize, row: &mut [u8])
    requires { n ≤ length row.old }
    ensures { row.new ≡ replicate n free_byte ++ drop n row.old }
{
    row[..n].fill(FREE);
}

// Puts each wish's byte at its variable.
pub fn mark_row(file: &[u8], wishes: usize, row: &mut [u8])
    requires { Rising (length row.old) 0 (wishes_in wishes (drop 16 file.now)) }
    ensures { row.new ≡ marked row.old (wishes_in wishes (drop 16 file.now)) }
{
    for i in 0..wishes {
        let at = HEADER_SIZE + WISH_SIZE * i;
        let variable = wish_file_lines::field_at(file, at);
        let mark = wish_file_lines::field_at(file, at + COLUMN_WIDTH);
        row[variable - 1] = wish::wish_for(mark as u8);
    }
}
