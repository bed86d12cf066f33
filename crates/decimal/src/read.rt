// Decimal numbers, read from bytes.
ghost use Rattle.std.specs.Prelude.{◌≡◌, ◌-◌, cond, None, Some};
ghost use Rattle.decimal.specs.Decimal.{is_digit, number};

// The bytes of the digits, from the first to the last.
pub const FIRST_DIGIT: u8 = b'0';

pub const LAST_DIGIT: u8 = b'9';

// Reads a number digit by digit, if the bytes are one: a digit may follow where the value so far is
// above 0 and below 10,000, which leaves no leading zero and at most five digits.
pub fn number_of(word: &[u8]) -> Option<usize>
    ensures { result ≡ number word.now }
{
    let (first, others) = word.split_first()?;
    let mut value = digit_of(*first)?;
    for b in others {
        let digit = digit_of(*b)?;
        if value == 0 || 10000 <= value {
            return None;
        }
        value = value * 10 + digit;
    }
    Some(value)
}

// The value of a digit's byte.
fn digit_of(b: u8) -> Option<usize>
    ensures { result ≡ cond (is_digit b) (Some (b - 48)) None }
{
    match b {
        FIRST_DIGIT..=LAST_DIGIT => Some((b - FIRST_DIGIT) as usize),
        _ => None,
    }
}
