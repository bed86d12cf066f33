// Where a refusal is told.
ghost use Rattle.std.specs.Prelude.{◌≡◌};
ghost use Rattle.program_diagnostics.specs.Diagnostic.{spot_of, spot_too_long};

use program_files::MAX_FILE;

// A place in the rule file, or in the wish file.
#[derive(Clone, Copy)]
pub enum Spot {
    Rules(usize),
    Wishes(usize),
}

// The spot of a refusal's number and place.
pub fn spot_of(number: usize, place: usize, rules: &[u8]) -> Spot
    ensures { result ≡ spot_of number place rules.now }
{
    match number {
        0..=7 => Spot::Rules(place),
        8..=11 => Spot::Wishes(place),
        12 => Spot::Rules(rule_file_header::past_comments(rules)),
        _ => Spot::Rules(program_empty_rule::find_empty(rules)),
    }
}

// The first byte too many of files of which one is too long.
pub fn too_long(rules: &[u8]) -> Spot
    ensures { result ≡ spot_too_long rules.now }
{
    if rules.len() <= MAX_FILE {
        Spot::Wishes(MAX_FILE)
    } else {
        Spot::Rules(MAX_FILE)
    }
}
