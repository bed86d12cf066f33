// The candidates of a clause.
ghost use Rattle.std.specs.Prelude.{◌≡◌, ◌||◌, ℕ, ◌<◌, pos, length, get_or};
ghost use Rattle.literal.specs.Literal.{variable};
ghost use Rattle.walk.specs.Branching.{mentions};
ghost use Rattle.walk_weighing.specs.Weights.{is_marked};

// Marks each variable of a clause.
pub fn mark_variables(clause: &[i32], marks: &mut [u64])
    requires { (k : ℕ) → k < length clause.now → variable (get_or clause.now k (pos 0)) < length marks.old }
    ensures { (v : ℕ) → is_marked marks.new v ≡ is_marked marks.old v || mentions v clause.now }
{
    for x in clause {
        marks[literal::variable_of(*x).0] = 1;
    }
}
