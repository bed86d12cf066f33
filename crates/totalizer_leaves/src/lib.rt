// The leaves of a wish row.
#![tactic(auto)]

ghost use Rattle.std.specs.Prelude.{◌≡◌, ◌≤◌, length};
ghost use Rattle.limits.specs.Limits.{max_variables};
ghost use Rattle.writing.specs.Wrote.{Wrote};
ghost use Rattle.wish.specs.Wish.{breaking};
ghost use Rattle.totalizer.specs.Totalizer.{leaves};

use literal::Variable;

// The literal that breaks a wish.
pub fn breaking_of(v: Variable, wish: u8) -> i32
    requires { v.0 ≤ max_variables }
    ensures { result ≡ breaking v.0 wish }
{
    literal::literal_of(v, wish::unwished_value(wish) == 1)
}

// Writes the leaves of a row, by rising variable, and gives their number.
pub fn put_leaves(row: &[u8], out: &mut [i32]) -> usize
    requires { (length row.now ≤ max_variables) × (length (leaves row.now) ≤ length out.old) }
    ensures { Wrote (leaves row.now) out.old 0 out.new result }
{
    let mut at = 0;
    for (i, wish) in row.iter().enumerate() {
        let leaf = breaking_of(Variable(i + 1), *wish);
        at = totalizer_output::put_times(leaf, wish::weight_of(*wish), out, at);
    }
    at
}
