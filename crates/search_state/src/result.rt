// What trying a state comes to, the forks that it took, and the answer that a search gives for it.
ghost use Rattle.std.specs.Prelude.{◌≡◌, ◌+◌, min};
ghost use Rattle.search_state.specs.Result.{with_forks};

use refusal::Refusal;

// The number of broken wishes of an answer, where there is one; and the forks that were made, as far as 64 bits
// count them.
#[derive(Clone, Copy)]
pub struct Tried {
    pub found: Option<usize>,
    pub forks: u64,
}

// Two numbers of forks and one more.
pub fn add_forks(first: u64, second: u64) -> u64
    ensures { result ≡ min (first + second + 1) 18446744073709551615 }
{
    first.saturating_add(second).saturating_add(1)
}

// What the second value of a fork came to, with the forks of the first and this one.
pub fn with_forks(first: u64, second: Tried) -> Tried
    ensures { result ≡ with_forks first second }
{
    Tried {
        found: second.found,
        forks: add_forks(first, second.forks),
    }
}

// What a walk came to, as a search's answer.
pub fn answer_of(tried: Tried) -> Result<Option<usize>, Refusal>
    ensures { result ≡ Ok tried.found }
{
    Ok(tried.found)
}
