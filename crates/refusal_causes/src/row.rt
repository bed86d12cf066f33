// The soundness of a wish row.
ghost use Rattle.std.specs.Prelude.{◌≡◌};
ghost use Rattle.refusal_causes.specs.Sound.{bad_wish};
ghost use Rattle.refusal_causes.specs.Scans.{row_scan};

use limits::MAX_WISHES;
use refusal::Unsound;

// How many wishes a sound row has, and what they weigh.
#[derive(Clone, Copy, Debug, PartialEq, Eq)]
pub struct RowSize {
    pub wishes: usize,
    pub weight: usize,
}

// Scans a wish row once: what a sound one holds, or its first bad index.
pub fn scan_row(row: &[u8]) -> Result<RowSize, Unsound>
    ensures { result ≡ row_scan (bad_wish 0 0 row.now) row.now }
{
    let mut wishes: usize = 0;
    let mut weight: usize = 0;
    for (place, wish) in row.iter().enumerate() {
        if !wish::is_row_byte(*wish) {
            return Err(Unsound { place });
        }
        let more = weight + wish::weight_of(*wish);
        if MAX_WISHES < more {
            return Err(Unsound { place });
        }
        weight = more;
        if wish::is_wish(*wish) {
            wishes += 1;
        }
    }
    Ok(RowSize { wishes, weight })
}
