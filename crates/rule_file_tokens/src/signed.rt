// Numbers of the list in a rule file: they have a sign.
ghost use Rattle.std.specs.Prelude.{◌≡◌};
ghost use Rattle.decimal.specs.Decimal.{number};
ghost use Rattle.rule_file.specs.Format.{signed, negative};

use literal::Variable;
use rule_file::Class;

// Reads a number of the list, if some bytes are one: a number, or a minus and a number other than 0.
pub fn signed_of(word: &[u8]) -> Option<i32>
    ensures { result ≡ signed word.now }
{
    let (first, digits) = word.split_first()?;
    if rule_file::class_of(*first) == Class::Minus {
        return negative_of(digits);
    }
    let v = decimal::number_of(word)?;
    // A closing zero has no variable.
    if v == 0 {
        return Some(0);
    }
    Some(literal::literal_of(Variable(v), true))
}

// The number behind a minus, negated.
fn negative_of(digits: &[u8]) -> Option<i32>
    ensures { result ≡ negative (number digits.now) }
{
    let magnitude = decimal::number_of(digits)?;
    if magnitude == 0 {
        return None;
    }
    Some(literal::literal_of(Variable(magnitude), false))
}
