// The values of a line, each after one blank.
use std::str;
use std::str::FromStr;

/// The values of a line that are still to be read. Where one is missing, all after it are missing too.
#[derive(Clone, Copy)]
pub struct Values<'a> {
    rest: Option<&'a [u8]>,
}

// A repeat: how many further elements it has, each from how many places before.
#[derive(Clone, Copy)]
struct Repeat {
    left: usize,
    back: usize,
}

impl<'a> Values<'a> {
    /// The word with which a line begins, and the values after it.
    pub fn of(line: &'a [u8]) -> (&'a [u8], Values<'a>) {
        let end = line
            .iter()
            .position(|byte| *byte == b' ')
            .unwrap_or(line.len());
        let (word, rest) = line.split_at(end);
        (word, Values { rest: Some(rest) })
    }

    /// The values after a word with which the line begins.
    pub fn after(line: &'a [u8], word: &[u8]) -> Values<'a> {
        Values {
            rest: line.strip_prefix(word),
        }
    }

    /// Whether all values have been read, and nothing stands after them.
    pub fn is_done(&self) -> bool {
        match self.rest {
            Some(rest) => rest.is_empty(),
            None => false,
        }
    }

    /// A decimal number below 2 to the power 64.
    pub fn number(&mut self) -> Option<usize> {
        self.value(|byte| byte.is_ascii_digit())
    }

    /// A decimal number of 32 bits, which may be negative.
    pub fn signed(&mut self) -> Option<i32> {
        self.value(|byte| byte.is_ascii_digit() || *byte == b'-')
    }

    // The value that the bytes of a kind spell, as far as they go.
    fn value<T: FromStr + Drop, F: Fn(&u8) -> bool>(&mut self, spells: F) -> Option<T>
    where
        T::Err: Drop,
        requires { F.IsAlwaysCallable spells }
    {
        let text = self.rest.take()?.strip_prefix(b" ")?;
        let end = text
            .iter()
            .position(|byte| !spells(byte))
            .unwrap_or(text.len());
        let (value, rest) = text.split_at(end);
        let value = str::from_utf8(value).ok()?.parse().ok()?;
        self.rest = Some(rest);
        Some(value)
    }

    /// What is left of the line, as a name.
    pub fn name(&mut self) -> Option<&'a [u8]> {
        self.rest.take()?.strip_prefix(b" ")
    }

    /// A list: its length and its elements, which fill the start of the space. Among these, `@ COUNT BACK`
    /// stands for COUNT further elements, each of them the one that stands BACK places before it.
    pub fn list<'s, T: Copy + TryFrom<i32>>(&mut self, space: &'s mut [T]) -> Option<&'s mut [T]>
    where
        T::Error: Drop,
    {
        let length = self.number()?;
        let list = space.get_mut(..length)?;
        let mut repeat = Repeat { left: 0, back: 0 };
        for i in 0..list.len() {
            if repeat.left == 0 {
                repeat = self.repeat()?;
            }
            if repeat.left == 0 {
                list[i] = T::try_from(self.signed()?).ok()?;
            } else {
                list[i] = *list[..i].get(i.checked_sub(repeat.back)?)?;
                repeat.left -= 1;
            }
        }
        if 0 < repeat.left {
            return None;
        }
        Some(list)
    }

    /// The same where a list stands there, else an empty one.
    pub fn list_if<'s, T: Copy + TryFrom<i32>>(
        &mut self,
        there: bool,
        space: &'s mut [T],
    ) -> Option<&'s mut [T]>
    where
        T::Error: Drop,
    {
        if there {
            return self.list(space);
        }
        space.get_mut(..0)
    }

    // The repeat that stands next: one of no elements where none does.
    fn repeat(&mut self) -> Option<Repeat> {
        let Some(rest) = self.rest?.strip_prefix(b" @") else {
            return Some(Repeat { left: 0, back: 0 });
        };
        self.rest = Some(rest);
        let left = self.number()?;
        let back = self.number()?;
        Some(Repeat { left, back })
    }
}
