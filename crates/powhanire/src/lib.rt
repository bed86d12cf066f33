// The library as C links it: the ten calls under plain names, each with its answer as a struct, and its
// version. A slice is a pointer and a length in elements.
#![tactic(auto)]

pub mod export;
pub mod files;
pub mod judge;
pub mod release;
pub mod rewrite;
pub mod search;
