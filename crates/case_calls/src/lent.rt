/// The values of a case, without the buffer that comes last: 0 or an empty list for one that the call does
/// not take.
#[derive(Clone, Copy)]
pub struct Lent<'a> {
    pub n: usize,
    pub rules: &'a [i32],
    pub row: &'a [u8],
    pub d: usize,
    pub choice: &'a [u8],
}
