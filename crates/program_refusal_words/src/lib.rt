// What is wrong and what would be right, for each cause for which a program refuses its files.
#![tactic(auto)]

ghost use Rattle.std.specs.Prelude.{◌≡◌, ◌+◌, ◌≤◌, length};
ghost use Rattle.writing.specs.Wrote.{Wrote};
ghost use Rattle.program_refusal_words.specs.Reasons.{wrong_count, rule_reason, wish_reason, reason, longest};

// Puts the sentence for a refusal's number, or for a file that is too long, which has the number 0.
pub fn put_reason(number: usize, at_end: bool, out: &mut [u8], at: usize) -> usize
    requires { at + longest ≤ length out.old }
    ensures { Wrote (reason number at_end) out.old at out.new result }
{
    let sentence = if number <= 7 {
        rule_reason(number, at_end)
    } else {
        wish_reason(number)
    };
    text::put_bytes(sentence, out, at)
}

// The sentences of a rule file.
fn rule_reason(number: usize, at_end: bool) -> &'static [u8]
    ensures { result.now ≡ rule_reason number at_end }
{
    match number {
        0 => b"the file is longer than 65536 bytes; a program reads no more than that",
        1 =>
            b"no header here; the first line that does not begin with c must be `p cnf N C`, with single spaces, numbers of one to five digits without leading zeros, and a line feed right behind C",
        2 =>
            b"N or C of the header is out of range; N, the number of settings, is 1 to 640, and C, the number of rules, is 0 to 9000",
        3 =>
            b"this is neither an entry nor 0; an entry is a setting's number, 1 to the header's N, without leading zeros, with a minus for off, 0 closes a rule, and a comment is a line that begins with c",
        4 =>
            b"this entry's setting is above N; settings are numbered from 1 to N, the first number of the header",
        6 => wrong_count(at_end),
        7 =>
            b"this entry is one too many; a file has at most 31000 entries, without repeats and closing zeros",
        _ => b"",
    }
}

// The sentences of a wish file, and of both files together.
fn wish_reason(number: usize) -> &'static [u8]
    ensures { result.now ≡ wish_reason number }
{
    match number {
        8 =>
            b"this line is missing, malformed or one too many; line 1 is settings, wishes, limit, each other line a setting and 1 or 0, right-justified in columns of 5, no leading zeros, then a line feed",
        9 =>
            b"a number of this line is out of range; the settings are 1 to 256, the wishes at most as many and at most 64, and the limit is 0 to 64",
        10 =>
            b"this wish is out of range or order; its setting is 1 to the first number of line 1 and above that of the wish before, and its value is 1 for on or 0 for off",
        11 =>
            b"the files differ in how many settings there are; the first number here must be N, the first of the rule file's header, which beside a wish file is at most 256",
        12 =>
            b"this rule file is too large; beside a wish file there are at most 4096 rules and 16384 entries, without repeats and closing zeros",
        16 =>
            b"this rule has no entries, so no choice meets it and OPB has no line for it; give it an entry, or take it out and count one rule less in C",
        _ => b"",
    }
}

// What is wrong with the number of rules.
fn wrong_count(at_end: bool) -> &'static [u8]
    ensures { result.now ≡ wrong_count at_end }
{
    if at_end {
        b"the file ends too early; it must close as many rules as C, the second number of the header, says, each by 0"
    } else {
        b"no rule is left for this number; C, the second number of the header, says how many rules there are"
    }
}
