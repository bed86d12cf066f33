// What a lent buffer holds after a call: every element of a short one, the length and a sum of a
// long one.
use std::fmt::Display;
use std::io;

// The longest buffer that is written whole.
const SHORT: usize = 64;

// Sums are taken below this prime.
const PRIME: u64 = 998244353;

/// An element of a buffer.
pub trait Element: Copy + Display {
    /// Its natural number in a sum.
    fn natural(self) -> u64;
}

impl Element for u8 {
    fn natural(self) -> u64 {
        u64::from(self)
    }
}

// Negative ones go by their magnitude, from 2 to the power 32 on.
impl Element for i32 {
    fn natural(self) -> u64 {
        let magnitude = u64::from(self.unsigned_abs());
        if self < 0 {
            magnitude + 4294967296
        } else {
            magnitude
        }
    }
}

/// Writes the line that says what a buffer holds.
pub fn held<T: Element>(to: &impl Print, list: &[T]) -> io::Result<()> {
    print!(to; "holds")?;
    if list.len() <= SHORT {
        for element in list {
            print!(to; " {element}")?;
        }
        println!(to)
    } else {
        println!(to; " {} elements of sum {}", list.len(), sum(list))
    }
}

/// A sum in which the order of the elements counts, below a prime.
pub fn sum<T: Element>(list: &[T]) -> u64 {
    list.iter().fold(0, |sum, element| {
        (sum % PRIME * 31 + element.natural() % PRIME) % PRIME
    })
}
