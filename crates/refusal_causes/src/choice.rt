// The soundness of a choice.
ghost use Rattle.std.specs.Prelude.{◌≡◌};
ghost use Rattle.refusal.specs.Reply.{refused, cause_at};
ghost use Rattle.refusal_causes.specs.Sound.{bad_choice};

use refusal::Refusal;

// Whether every byte of a choice is 0 or 1.
pub fn scan_choice(choice: &[u8]) -> Result<(), Refusal>
    ensures { refused result ≡ cause_at 13 (bad_choice 0 choice.now) }
{
    for (place, value) in choice.iter().enumerate() {
        if 1 < *value {
            return refusal::refuse(13, place);
        }
    }
    Ok(())
}
