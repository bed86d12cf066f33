// The length of a row or a choice, and the size of a problem with wishes.
ghost use Rattle.std.specs.Prelude.{◌≡◌, not, eqb};
ghost use Rattle.refusal.specs.Reply.{refused, cause};
ghost use Rattle.refusal_causes.specs.Lent.{oversized};

use limits::{MAX_WISH_CLAUSES, MAX_WISH_LITERALS, MAX_WISH_VARIABLES};
use refusal::Refusal;

// Whether a row or a choice has a byte for each of n variables.
pub fn check_length(n: usize, given: usize) -> Result<(), Refusal>
    ensures { refused result ≡ cause (not (eqb given n)) 11 0 }
{
    if given == n {
        return Ok(());
    }
    refusal::refuse(11, 0)
}

// Whether a problem is small enough for a call that takes wishes.
pub fn check_size(n: usize, clauses: usize, literals: usize) -> Result<(), Refusal>
    ensures { refused result ≡ cause (oversized n clauses literals) 12 0 }
{
    if MAX_WISH_VARIABLES < n {
        return refusal::refuse(12, 0);
    }
    if MAX_WISH_CLAUSES < clauses {
        return refusal::refuse(12, 0);
    }
    if MAX_WISH_LITERALS < literals {
        return refusal::refuse(12, 0);
    }
    Ok(())
}
