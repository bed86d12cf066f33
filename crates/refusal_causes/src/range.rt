// The range of the numbers that a call takes.
ghost use Rattle.std.specs.Prelude.{◌≡◌};
ghost use Rattle.refusal.specs.Reply.{refused, cause};
ghost use Rattle.refusal_causes.specs.Lent.{out_of_range};

use limits::{MAX_LIMIT, MAX_VARIABLES};
use refusal::Refusal;

// Whether n is 1 to 640 and d at most 64.
pub fn check_range(n: usize, d: usize) -> Result<(), Refusal>
    ensures { refused result ≡ cause (out_of_range n d) 14 0 }
{
    if n == 0 {
        return refusal::refuse(14, 0);
    }
    if MAX_VARIABLES < n {
        return refusal::refuse(14, 0);
    }
    if MAX_LIMIT < d {
        return refusal::refuse(14, 0);
    }
    Ok(())
}
