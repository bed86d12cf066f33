// At most d of some leaves hold: the totalizer's clauses and the limit clause, counted and written.
#![tactic(auto)]

ghost use Rattle.std.specs.Prelude.{List, ◌≡◌, ℕ, ◌+◌, ◌≤◌, ℤ, length};
ghost use Rattle.limits.specs.Limits.{max_variables, max_wishes};
ghost use Rattle.rule_list_soundness.specs.Flat.{flat};
ghost use Rattle.writing.specs.Wrote.{Wrote};
ghost use Rattle.totalizer.specs.Totalizer.{tree, added, at_most};
ghost use Rattle.totalizer_adder.specs.Adder.{outputs, reach};
ghost use Rattle.totalizer_groups.specs.Groups.{LeavesFit};
ghost use Rattle.totalizer_at_most.specs.Limit.{limiting};

use totalizer_adder::Outputs;

// The last variable that the clauses took, and the next place in the list.
#[derive(Clone, Copy)]
pub struct End {
    pub last: usize,
    pub at: usize,
}

// How many elements the clauses over m leaves take, with the limit clause if d is below m: by a
// formula, since nothing is written yet. The bound lets callers add to it.
pub fn length_of(m: usize, d: usize) -> usize
    requires { m ≤ max_wishes }
    ensures { ((n : ℕ) (l : List ℤ) → length l ≡ m → result ≡ length (flat (at_most n l d))) × (result ≤ 100000) }
{
    let own = 4 * (m * m) + 6 * totalizer_groups::added_by(m) - 4 * m;
    if d < m { own + 2 } else { own }
}

// Writes the clause -s(d+1) of a group with m outputs, if d is below m.
pub fn put_limit(s: Outputs, m: usize, d: usize, out: &mut [i32], at: usize) -> usize
    requires { (reach s m ≤ max_variables) × (at + length (flat (limiting (outputs s) m d)) ≤ length out.old) }
    ensures { Wrote (flat (limiting (outputs s) m d)) out.old at out.new result }
{
    if d < m {
        let last = literal::negate(totalizer_adder::output_of(s, d + 1));
        return totalizer_output::put_closed(last, out, at);
    }
    at
}

// Writes the clauses over some leaves, their variables numbered after n, and the limit clause.
pub fn put_at_most(leaves: &[i32], n: usize, d: usize, out: &mut [i32], from: usize) -> End
    requires { LeavesFit leaves.now × (n + added (tree leaves.now) ≤ max_variables) × (from + length (flat (at_most n leaves.now d)) ≤ length out.old) }
    ensures { Wrote (flat (at_most n leaves.now d)) out.old from out.new result.at × (result.last ≡ n + added (tree leaves.now)) }
{
    let whole = totalizer_groups::put_group(leaves, n, out, from);
    let outputs = whole.outputs;
    let at = put_limit(outputs, leaves.len(), d, out, whole.at);
    End {
        last: whole.last,
        at,
    }
}
