// The line that a refusal prints.
ghost use Rattle.std.specs.Prelude.{◌≡◌, ◌≤◌, length};
ghost use Rattle.refusal.specs.Reply.{refusal};
ghost use Rattle.program_report.specs.Report.{refusal_line, fitted};

use refusal::Refusal;

// Puts the line of a refusal, and gives its length: two numbers of at most twenty digits.
pub fn put_refusal(refused: Refusal, out: &mut [u8]) -> usize
    ensures { (result ≡ length (refusal_line refused)) × (out.new ≡ fitted (refusal_line refused) out.old) × (result ≤ 42) }
{
    put_line(refused.number, refused.place, out)
}

// Puts the number, a space, the place and a line feed.
fn put_line(number: usize, place: usize, out: &mut [u8]) -> usize
    ensures { (result ≡ length (refusal_line (refusal number place))) × (out.new ≡ fitted (refusal_line (refusal number place)) out.old) × (result ≤ 42) }
{
    let needed = text::number_length(number) + text::number_length(place) + 2;
    if out.len() < needed {
        return needed;
    }
    let space = text::put_number(number, out, 0);
    let next = text::put_byte(b' ', out, space);
    let end = text::put_number(place, out, next);
    text::put_byte(b'\n', out, end)
}
