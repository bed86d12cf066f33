// The classes of bytes in a rule file.
#![tactic(auto)]

ghost use Rattle.std.specs.Prelude.{◌≡◌};
ghost use Rattle.rule_file.specs.Class.{class_of, class_number};

#[derive(Clone, Copy, Debug, PartialEq, Eq)]
pub enum Class {
    Blank,
    Digit,
    Minus,
    LetterC,
    // Any byte that has no class above.
    Other,
}

// The class of a byte, "decided from the ranges themselves" (document 02, L4).
pub fn class_of(b: u8) -> Class
    ensures { class_number result ≡ class_of b }
{
    match b {
        9..=10 | 13 | 32 => Class::Blank,
        decimal::FIRST_DIGIT..=decimal::LAST_DIGIT => Class::Digit,
        b'-' => Class::Minus,
        b'c' => Class::LetterC,
        _ => Class::Other,
    }
}
