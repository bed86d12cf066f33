// Where the clauses begin.
ghost use Rattle.std.specs.Prelude.{◌≤◌, length};
ghost use Rattle.formula.specs.Formula.{clauses};
ghost use Rattle.walk_occurrences.specs.Begins.{Begun};
ghost use Rattle.walk_occurrences.specs.Keys.{longest};

// Notes for each clause of a closed list the index at which it begins.
pub fn note_begins(rules: &[i32], begins: &mut [u16])
    requires { (length rules.now ≤ longest) × (length (clauses rules.now) ≤ length begins.old) }
    ensures { Begun rules.now begins.new }
{
    let mut k = 0;
    let mut from = 0;
    while from < rules.len() {
        begins[k] = from as u16;
        k += 1;
        from = formula::clause_end(rules, from) + 1;
    }
}
