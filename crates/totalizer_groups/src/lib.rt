// The totalizer over some leaves: how many variables it adds, and its clauses, written into a list
// that has room for them.
#![tactic(auto)]

ghost use Rattle.std.specs.Prelude.{List, ◌≡◌, ◌+◌, ◌≤◌, ℤ, pos, length, get_or};
ghost use Rattle.limits.specs.Limits.{max_variables, max_wishes};
ghost use Rattle.rule_list_soundness.specs.Flat.{flat};
ghost use Rattle.totalizer.specs.Totalizer.{tree, added, totalizer};
ghost use Rattle.totalizer_adder.specs.Adder.{Small, clauses};
ghost use Rattle.totalizer_groups.specs.Groups.{LeavesFit, Written, Joined, joined};

use totalizer_adder::{Adder, Outputs};

// What a group left behind: its outputs, the last variable that it took, and the next place in the list.
#[derive(Clone, Copy)]
pub struct Group {
    pub outputs: Outputs,
    pub last: usize,
    pub at: usize,
}

// How many variables a group of m leaves adds.
pub fn added_by(m: usize) -> usize
    requires { m ≤ max_wishes }
    ensures { (l : List ℤ) → length l ≡ m → result ≡ added (tree l) }
{
    if m < 2 {
        return 0;
    }
    let half = m / 2;
    added_by(half) + added_by(m - half) + m
}

// The outputs of a group of one leaf. Where there is none, the group stands for nothing.
fn only(leaves: &[i32]) -> Outputs
    ensures { result ≡ Outputs.Leaf (get_or leaves.now 0 (pos 0)) }
{
    Outputs::Leaf(leaves.first().copied().unwrap_or(0))
}

// Writes the own clauses of a group of two parts, with p and q leaves.
fn join(left: Group, p: usize, right: Group, q: usize, out: &mut [i32]) -> Group
    requires { Small (joined left p right q) × (right.at + length (flat (clauses (joined left p right q))) ≤ length out.old) }
    ensures { Joined left p right q out.old out.new result }
{
    let a = left.outputs;
    let b = right.outputs;
    let base = right.last;
    let g = Adder {
        left: a,
        p,
        right: b,
        q,
        base,
    };
    let at = totalizer_adder::put_adder(g, out, right.at);
    Group {
        outputs: Outputs::Counters(base),
        last: base + (p + q),
        at,
    }
}

// Writes the clauses of a group, its variables numbered after n: the left part, the right part, itself.
pub fn put_group(leaves: &[i32], n: usize, out: &mut [i32], at: usize) -> Group
    requires { LeavesFit leaves.now × (n + added (tree leaves.now) ≤ max_variables) × (at + length (flat (totalizer n (tree leaves.now))) ≤ length out.old) }
    ensures { Written n leaves.now out.old at out.new result }
{
    let m = leaves.len();
    if m < 2 {
        return Group {
            outputs: only(leaves),
            last: n,
            at,
        };
    }
    let half = m / 2;
    let left = put_group(&leaves[..half], n, out, at);
    let right = put_group(&leaves[half..], left.last, out, left.at);
    join(left, half, right, m - half, out)
}
