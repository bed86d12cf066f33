// Variables, clauses and literals: the one place with signed arithmetic. Everything above works on
// the numbers and booleans that these functions give.
#![tactic(auto)]

ghost use Rattle.std.specs.Prelude.{◌≡◌, ◌≤◌, neg_ℤ};
ghost use Rattle.literal.specs.Literal.{variable, closes, wanted, literal, value, holds};
ghost use Rattle.literal.specs.Slots.{slot};

// A variable's number, from 1 (document 01: a setting).
#[derive(Clone, Copy, Debug, PartialEq, Eq)]
pub struct Variable(pub usize);

// A clause's number, from 1 (document 01: a rule).
#[derive(Clone, Copy, Debug, PartialEq, Eq)]
pub struct Clause(pub usize);

// The variable of a literal, or the magnitude of any number: a closing zero gives 0, which is no variable,
// and who may meet one asks `closes`.
pub fn variable_of(x: i32) -> Variable
    ensures { result.0 ≡ variable x }
{
    Variable(x.unsigned_abs() as usize)
}

// Whether a number of a rule list is the 0 that closes a clause, and no literal.
pub fn closes(x: i32) -> bool
    ensures { result ≡ closes x }
{
    x == 0
}

// The value that makes a literal hold: 1 for on, 0 for off.
pub fn wanted_by(x: i32) -> u8
    ensures { result ≡ wanted x }
{
    if x < 0 { 0 } else { 1 }
}

// A literal's place in a table of all literals: two for each variable, off before on.
pub fn slot_of(x: i32) -> usize
    ensures { result ≡ slot x }
{
    2 * variable_of(x).0 + wanted_by(x) as usize
}

// The literal by which a variable is asked to be on, or off. The bound is the greatest i32.
pub fn literal_of(v: Variable, positive: bool) -> i32
    requires { v.0 ≤ 2147483647 }
    ensures { result ≡ literal v.0 positive }
{
    let x = v.0 as i32;
    if positive { x } else { -x }
}

// A variable's value in an assignment, 2 where it has none. The number 0 is no variable, so it has none.
pub fn value_of(v: Variable, assignment: &[u8]) -> u8
    ensures { result ≡ value assignment.now v.0 }
{
    match v.0 {
        0 => 2,
        number => assignment.get(number - 1).copied().unwrap_or(2),
    }
}

// Whether a literal holds in an assignment.
pub fn holds_in(x: i32, assignment: &[u8]) -> bool
    ensures { result ≡ holds assignment.now x }
{
    value_of(variable_of(x), assignment) == wanted_by(x)
}

// The opposite literal. The bound is the greatest i32.
pub fn negate(x: i32) -> i32
    requires { variable x ≤ 2147483647 }
    ensures { result ≡ neg_ℤ x }
{
    -x
}
