// The values of the calls that read and write files.
ghost use Rattle.std.specs.Prelude.{Ok};
ghost use Rattle.replies.specs.Written as written_text;
ghost use Rattle.rule_file_reader.specs.Read as rules_read;
ghost use Rattle.wish_file_reader.specs.Read as wishes_read;

use crate::{Answer, Values, answered};
use rule_file_reader::RuleCounts;
use wish_file_reader::WishHeader;

// The length of a text that was written.
impl Values for usize {
    ghost reply = { λ length. written_text.reply_of (Ok length) };

    fn values(self) -> Answer {
        answered(1, self, 0, 0)
    }
}

// The variables, the rules and the length of a list that was read.
impl Values for RuleCounts {
    ghost reply = { λ counts. rules_read.reply_of (Ok counts) };

    fn values(self) -> Answer {
        answered(1, self.variables, self.clauses, self.length)
    }
}

// n, the number of wishes and the limit of a wish file that was read.
impl Values for WishHeader {
    ghost reply = { λ header. wishes_read.reply_of (Ok header) };

    fn values(self) -> Answer {
        answered(1, self.variables, self.wishes, self.limit)
    }
}
