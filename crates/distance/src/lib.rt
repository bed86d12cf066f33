// How many wishes an assignment breaks.
#![tactic(auto)]

ghost use Rattle.std.specs.Prelude.{◌≡◌, ◌<◌, ◌^◌};
ghost use Rattle.wish.specs.Wish.{total_weight};
ghost use Rattle.distance.specs.Distance.{disagreement};

// The number of wishes that an assignment breaks. It fits if all of them together do.
pub fn disagreement_of(row: &[u8], assignment: &[u8]) -> usize
    requires { total_weight row.now < 2 ^ 64 }
    ensures { result ≡ disagreement row.now assignment.now }
{
    let mut broken = 0;
    for (wish, value) in row.iter().zip(assignment) {
        broken += wish::cost_of(*wish, *value);
    }
    broken
}
