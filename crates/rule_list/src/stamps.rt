// A stamp for each literal, at its slot: the number of the clause in which it was last seen. It tells at
// once whether the open clause holds the literal already.
ghost use Rattle.std.specs.Prelude.{not, ◌&&◌, ◌≡◌, ℕ, ◌+◌, ◌≤◌, eqb, length, get_or, set};
ghost use Rattle.literal.specs.Literal.{variable, closes};
ghost use Rattle.literal.specs.Slots.{slot};
ghost use Rattle.limits.specs.Limits.{max_variables, max_clauses};
ghost use Rattle.rule_list.specs.Stamps.{slots};

use literal::Clause;

// No literal seen yet. There are two slots for each number from 0 to 640.
pub fn no_stamps() -> [u16; 1282]
    ensures { (length result ≡ slots) × ((j : ℕ) → get_or result j 0 ≡ 0) }
{
    [0; 1282]
}

// Whether a literal was last seen in a clause. One above the 640 variables has no stamp, which is as
// good as 0: no clause has that number.
pub fn is_stamped(stamps: &[u16; 1282], x: i32, clause: Clause) -> bool
    requires { length stamps.now ≡ slots }
    ensures { result ≡ eqb (get_or stamps.now (slot x) 0) clause.0 }
{
    let at = literal::slot_of(x);
    if at < 1282 {
        wide(stamps[at]) == clause.0
    } else {
        0 == clause.0
    }
}

// Whether a number of a list repeats a literal of the open clause. A closing zero repeats nothing.
pub fn is_repeat(stamps: &[u16; 1282], x: i32, clause: Clause) -> bool
    requires { length stamps.now ≡ slots }
    ensures { result ≡ not (closes x) && eqb (get_or stamps.now (slot x) 0) clause.0 }
{
    if literal::closes(x) {
        return false;
    }
    is_stamped(stamps, x, clause)
}

fn wide(stamp: u16) -> usize
    ensures { result ≡ stamp }
{
    stamp as usize
}

// A literal is seen in a clause.
pub fn stamp(stamps: &mut [u16; 1282], x: i32, clause: Clause)
    requires { (variable x ≤ max_variables) × (clause.0 ≤ max_clauses + 1) }
    ensures { stamps.new ≡ set stamps.old (slot x) clause.0 }
{
    let slot = literal::slot_of(x);
    stamps[slot] = clause.0 as u16;
}
