// The numbers of the wish file's line one, and the sizes of its parts, in bytes.
#![tactic(auto)]

pub const COLUMN_WIDTH: usize = 5;

// Line one has three columns and a line feed, a wish line two.
pub const HEADER_SIZE: usize = 16;

pub const WISH_SIZE: usize = 11;

// What a file holds beside its row: the numbers of its line one.
#[derive(Clone, Copy, Debug, PartialEq, Eq)]
pub struct WishHeader {
    pub variables: usize,
    pub wishes: usize,
    pub limit: usize,
}
