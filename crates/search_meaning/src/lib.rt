// What the searches answer: `Result<Option<usize>, Refusal>`. A search is refused, or it found a choice, with the
// number of wishes that this breaks, or there is none. What that means is said in specs/.
#![tactic(auto)]
