// The arrangement's one slice, and what is read from it. Where each part ends stands from index 0 on.
ghost use Rattle.std.specs.Prelude.{◌≡◌, ◌-◌, ◌≤◌, ◌<◌, length, get_or, take};
ghost use Rattle.walk_occurrences.specs.Layout.{HasPart, begins_of, numbers_of, numbers_at, part_at};

use literal::Clause;

// where the begins of the clauses stand
pub const BEGINS_AT: usize = 1282;

// where the clause numbers stand
pub const NUMBERS_AT: usize = 10282;

// The index of the closed list at which a clause begins.
pub fn begin_of(arrangement: &[u16], clause: Clause) -> usize
    requires { (0 < clause.0) × (clause.0 ≤ length (begins_of arrangement.now)) }
    ensures { result ≡ get_or (begins_of arrangement.now) (clause.0 - 1) 0 }
{
    let k = clause.0 - 1;
    arrangement[BEGINS_AT + k] as usize
}

// Where all clauses begin, one after the other.
pub fn begins_of(arrangement: &[u16]) -> &[u16]
    requires { numbers_at ≤ length arrangement.now }
    ensures { result.now ≡ begins_of arrangement.now }
{
    let from = BEGINS_AT;
    let to = NUMBERS_AT;
    &arrangement[from..to]
}

// The clauses of a part: for a literal's slot the numbers of the clauses that hold it.
pub fn part_of(arrangement: &[u16], slot: usize) -> &[u16]
    requires { HasPart arrangement.now slot }
    ensures { result.now ≡ part_at arrangement.now slot }
{
    let begin = NUMBERS_AT + arrangement[slot - 1] as usize;
    let end = NUMBERS_AT + arrangement[slot] as usize;
    &arrangement[begin..end]
}

// How many clauses there are: the first two parts name each clause once.
pub fn clause_count(arrangement: &[u16]) -> usize
    requires { 1 < length arrangement.now }
    ensures { result ≡ get_or arrangement.now 1 0 }
{
    arrangement[1] as usize
}

// The numbers of all clauses, those with entries first: the first two parts.
pub fn every_clause(arrangement: &[u16]) -> &[u16]
    requires { HasPart arrangement.now 1 }
    ensures { result.now ≡ take (get_or arrangement.now 1 0) (numbers_of arrangement.now) }
{
    let from = NUMBERS_AT;
    let end = NUMBERS_AT + clause_count(arrangement);
    &arrangement[from..end]
}
