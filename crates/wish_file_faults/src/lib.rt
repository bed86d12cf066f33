// The causes to refuse the numbers on a line of a wish file.
#![tactic(auto)]

ghost use Rattle.std.specs.Prelude.{◌≡◌};
ghost use Rattle.wish_file.specs.Format.{outside, misfit};

use limits::{MAX_LIMIT, MAX_WISH_VARIABLES, MAX_WISHES};

// Whether the numbers of line one are out of range.
pub fn is_outside(n: usize, wishes: usize, limit: usize) -> bool
    ensures { result ≡ outside n wishes limit }
{
    n == 0 || MAX_WISH_VARIABLES < n || n < wishes || MAX_WISHES < wishes || MAX_LIMIT < limit
}

// Whether the wish on a line may not stand there. The numbers are as they were read, so 0 may be among
// them; `last` is that of the line before, and 0 before the first, so that no variable is too low there.
pub fn is_misfit(n: usize, last: usize, number: usize, mark: usize) -> bool
    ensures { result ≡ misfit n last (record { variable = number; mark = mark }) }
{
    number <= last || n < number || 1 < mark
}
