// The outputs of a group, and the literals that they give to a clause.
ghost use Rattle.std.specs.Prelude.{◌≡◌, ◌+◌, ◌<◌, ◌≤◌, length};
ghost use Rattle.limits.specs.Limits.{max_variables};
ghost use Rattle.writing.specs.Wrote.{Wrote};
ghost use Rattle.totalizer.specs.Totalizer.{lower, upper};
ghost use Rattle.totalizer_adder.specs.Adder.{outputs, reach};

use literal::Variable;

// The outputs r1, r2, .. of a group: its one leaf, or the variables after `base`.
#[derive(Clone, Copy)]
pub enum Outputs {
    Leaf(i32),
    Counters(usize),
}

// Output k of a group.
pub fn output_of(a: Outputs, k: usize) -> i32
    requires { reach a k ≤ max_variables }
    ensures { result ≡ outputs a k }
{
    match a {
        Outputs::Leaf(x) => x,
        Outputs::Counters(base) => literal::literal_of(Variable(base + k), true),
    }
}

// Writes -a(i), leaving out index 0.
pub fn put_lower(a: Outputs, i: usize, out: &mut [i32], at: usize) -> usize
    requires { (reach a i ≤ max_variables) × (at + length (lower (outputs a) i) ≤ length out.old) }
    ensures { Wrote (lower (outputs a) i) out.old at out.new result }
{
    if i == 0 {
        return at;
    }
    totalizer_output::put(literal::negate(output_of(a, i)), out, at)
}

// Writes a(i+1), leaving out a(p+1).
pub fn put_upper(a: Outputs, p: usize, i: usize, out: &mut [i32], at: usize) -> usize
    requires { (reach a p ≤ max_variables) × (at + length (upper (outputs a) p i) ≤ length out.old) }
    ensures { Wrote (upper (outputs a) p i) out.old at out.new result }
{
    if i < p {
        return totalizer_output::put(output_of(a, i + 1), out, at);
    }
    at
}
