// The answers that several calls share. A call that writes a text answers its length; what a search answers is in
// crate `search_meaning`.
#![tactic(auto)]

// The number of variables of a rewritten list, and its length.
#[derive(Clone, Copy, Debug, PartialEq, Eq)]
pub struct Sizes {
    pub variables: usize,
    pub length: usize,
}
