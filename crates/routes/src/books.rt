// The books of the input. Each has a line `book LIMITS RULES WISHES NAME`: how many limits the routes
// are run with, the lengths of its two files, and its name. The rule file follows, the wish file, and a
// line feed.
ghost use Rattle.std.specs.Prelude.{◌≡◌, ◌-◌, ◌≤◌, length};

use crate::book;
use case_text::Values;
use std::io;

// What the first line of a book says: 0 for a number that is missing.
#[derive(Clone, Copy)]
struct Heading<'a> {
    limits: usize,
    rules: usize,
    wishes: usize,
    name: Option<&'a [u8]>,
}

// A write that fails is let go, with what is left of its book's line: what is missing then shows where the
// output is compared.
pub fn run(to: &impl Print, input: &[u8]) {
    let mut rest = input;
    while !rest.is_empty() {
        let (line, files) = cut(rest, line_length(rest));
        let heading = Heading::of(line);
        let (rules, after) = cut(past_feed(files), heading.rules);
        let (wishes, after) = cut(after, heading.wishes);
        let _ = book(to, heading, rules, wishes);
        rest = past_feed(after);
    }
}

fn line_length(text: &[u8]) -> usize {
    text.iter()
        .position(|byte| *byte == b'\n')
        .unwrap_or(text.len())
}

// What follows the line feed with which a text begins.
fn past_feed(text: &[u8]) -> &[u8]
    ensures { length result.now ≡ length text.now - 1 }
{
    text.get(1..).unwrap_or(text)
}

// A part of some size, and what follows it: the whole of an input that is cut.
fn cut(text: &[u8], size: usize) -> (&[u8], &[u8])
    ensures { length result.1.now ≤ length text.now }
{
    text.split_at(size.min(text.len()))
}

fn book(to: &impl Print, heading: Heading, rules: &[u8], wishes: &[u8]) -> io::Result<()> {
    to.write_all(heading.name.unwrap_or(b"bad book"))?;
    book::run(to, rules, wishes, heading.limits)?;
    println!(to)
}

impl<'a> Heading<'a> {
    fn of(line: &'a [u8]) -> Heading<'a> {
        let mut values = Values::after(line, b"book");
        Heading {
            limits: values.number().unwrap_or(0),
            rules: values.number().unwrap_or(0),
            wishes: values.number().unwrap_or(0),
            name: values.name(),
        }
    }
}
