// A clause's weight.
ghost use Rattle.std.specs.Prelude.{◌≡◌, cond, ℕ, ◌+◌, get_or};
ghost use Rattle.formula.specs.Formula.{any};
ghost use Rattle.literal.specs.Slots.{is_at};
ghost use Rattle.walk_weighing.specs.Weights.{Addable};

// Adds a weight at each literal of a clause.
pub fn add_weight(clause: &[i32], weight: u64, weights: &mut [u64])
    requires { Addable clause.now weight weights.old }
    ensures { (i : ℕ) → get_or weights.new i 0 ≡ get_or weights.old i 0 + cond (any (is_at i) clause.now) weight 0 }
{
    for x in clause {
        weights[literal::slot_of(*x)] += weight;
    }
}
