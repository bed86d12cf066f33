// The clauses of a group: for each i and j the one up and the one down.
ghost use Rattle.std.specs.Prelude.{◌+◌, ◌<◌, ◌≤◌, length};
ghost use Rattle.writing.specs.Wrote.{Wrote};
ghost use Rattle.rule_list_soundness.specs.Flat.{flat};
ghost use Rattle.totalizer_adder.specs.Adder.{Small, up_clauses, down_clauses, row, clauses};

use crate::outputs::{Outputs, put_lower, put_upper};
use literal::Variable;

// A group of two parts, with p and q outputs, whose own outputs are the variables after `base`.
#[derive(Clone, Copy)]
pub struct Adder {
    pub left: Outputs,
    pub p: usize,
    pub right: Outputs,
    pub q: usize,
    pub base: usize,
}

// Writes the clause up, unless i = j = 0.
fn put_up(g: Adder, i: usize, j: usize, out: &mut [i32], from: usize) -> usize
    requires { Small g × (i ≤ g.p) × (j ≤ g.q) × (from + length (flat (up_clauses g i j)) ≤ length out.old) }
    ensures { Wrote (flat (up_clauses g i j)) out.old from out.new result }
{
    let sum = i + j;
    if sum == 0 {
        return from;
    }
    let left = g.left;
    let right = g.right;
    let middle = put_lower(left, i, out, from);
    let at = put_lower(right, j, out, middle);
    totalizer_output::put_closed(literal::literal_of(Variable(g.base + sum), true), out, at)
}

// Writes the clause down, unless i = p and j = q.
fn put_down(g: Adder, i: usize, j: usize, out: &mut [i32], from: usize) -> usize
    requires { Small g × (i ≤ g.p) × (j ≤ g.q) × (from + length (flat (down_clauses g i j)) ≤ length out.old) }
    ensures { Wrote (flat (down_clauses g i j)) out.old from out.new result }
{
    let sum = i + j;
    if sum == g.p + g.q {
        return from;
    }
    let left = g.left;
    let right = g.right;
    let middle = put_upper(left, g.p, i, out, from);
    let at = put_upper(right, g.q, j, out, middle);
    totalizer_output::put_closed(
        literal::literal_of(Variable(g.base + sum + 1), false),
        out,
        at,
    )
}

// Writes the clauses for one i and all j.
fn put_row(g: Adder, i: usize, out: &mut [i32], from: usize) -> usize
    requires { Small g × (i ≤ g.p) × (from + length (flat (row g i)) ≤ length out.old) }
    ensures { Wrote (flat (row g i)) out.old from out.new result }
{
    let mut at = from;
    for j in 0..=g.q {
        at = put_up(g, i, j, out, at);
        at = put_down(g, i, j, out, at);
    }
    at
}

// Writes all clauses of the group.
pub fn put_adder(g: Adder, out: &mut [i32], from: usize) -> usize
    requires { Small g × (from + length (flat (clauses g)) ≤ length out.old) }
    ensures { Wrote (flat (clauses g)) out.old from out.new result }
{
    let mut at = from;
    for i in 0..=g.p {
        at = put_row(g, i, out, at);
    }
    at
}
