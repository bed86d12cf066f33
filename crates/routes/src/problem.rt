/// What a book's two files hold, as the searches take it.
#[derive(Clone, Copy)]
pub struct Problem<'a> {
    pub n: usize,
    pub rules: &'a [i32],
    pub row: &'a [u8],
}

/// The longest choice.
pub const LONGEST_CHOICE: usize = 640;

/// What a choice is before a search: no byte of one, so that a search that writes too few does not pass the
/// checking call.
pub const UNSET: u8 = 2;
