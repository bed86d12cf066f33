// The limits of document 01, each as the definition of the same name in specs/Limits.antt.
#![tactic(auto)]

pub const MAX_VARIABLES: usize = 640;

pub const MAX_CLAUSES: usize = 9000;

pub const MAX_LITERALS: usize = 31000;

pub const MAX_WISHES: usize = 64;

pub const MAX_LIMIT: usize = 64;

// With a wish row.
pub const MAX_WISH_VARIABLES: usize = 256;

pub const MAX_WISH_CLAUSES: usize = 4096;

pub const MAX_WISH_LITERALS: usize = 16384;
