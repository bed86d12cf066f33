// The values of the searches, of the checking call and of rewriting.
ghost use Rattle.std.specs.Prelude.{Ok};
ghost use Rattle.checking.specs.Check as check;
ghost use Rattle.replies.specs.Rewritten as rewrite;
ghost use Rattle.search_meaning.specs.Answers as search;

use crate::{Answer, Values, answered};
use checking::Checked;
use replies::Sizes;

// Verdict 1 where a choice was found, and 0 where there is none; the value is the number of broken
// wishes.
impl Values for Option<usize> {
    ghost reply = { λ found. search.reply_of (Ok found) };

    fn values(self) -> Answer {
        match self {
            Some(broken) => answered(1, broken, 0, 0),
            None => answered(0, 0, 0, 0),
        }
    }
}

// Verdict 1 where the choice meets all rules, 0 where not; the value is the number of broken wishes.
impl Values for Checked {
    ghost reply = { λ checked. check.reply_of (Ok checked) };

    fn values(self) -> Answer {
        match self {
            Checked::Met(broken) => answered(1, broken, 0, 0),
            Checked::Unmet(broken) => answered(0, broken, 0, 0),
        }
    }
}

// The variables and the length of a rewritten list.
impl Values for Sizes {
    ghost reply = { λ sizes. rewrite.reply_of (Ok sizes) };

    fn values(self) -> Answer {
        answered(1, self.variables, self.length, 0)
    }
}
