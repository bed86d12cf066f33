// What a call answers where it gives no result: a cause, as document 01 numbers it, and a place.
#![tactic(auto)]

ghost use Rattle.std.specs.Prelude.{◌≡◌, Some};
ghost use Rattle.refusal.specs.Reply.{refusal, refused, too_short};

#[derive(Clone, Copy, Debug, PartialEq, Eq)]
pub struct Refusal {
    pub number: usize,
    pub place: usize,
}

// A lent list that is not sound (13), by its first bad index.
#[derive(Clone, Copy, Debug, PartialEq, Eq)]
pub struct Unsound {
    pub place: usize,
}

impl From<Unsound> for Refusal {
    ghost from_gives = { λ unsound r. r ≡ refusal 13 unsound.place };

    fn from(unsound: Unsound) -> Refusal {
        Refusal {
            number: 13,
            place: unsound.place,
        }
    }
}

pub fn refuse(number: usize, place: usize) -> Result<(), Refusal>
    ensures { refused result ≡ Some (refusal number place) }
{
    Err(Refusal { number, place })
}

// Whether an output has room for all that is needed: the last cause of every call that has one.
pub fn check_room(needed: usize, room: usize) -> Result<(), Refusal>
    ensures { refused result ≡ too_short needed room }
{
    if room < needed {
        return refuse(15, needed);
    }
    Ok(())
}
