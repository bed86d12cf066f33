// What is made once, before a search begins.
ghost use Rattle.std.specs.Prelude.{◌≡◌, ◌≤◌, length};
ghost use Rattle.limits.specs.Limits.{max_variables, max_clauses};
ghost use Rattle.rule_list.specs.Sound.{SoundList};
ghost use Rattle.walk_occurrences.specs.Layout.{arrangement_room};
ghost use Rattle.search_state.specs.Ready.{Prepared};

// Arranges the clauses, and notes a witness for each: at first what stands where the clause begins. Gives how
// many clauses there are, which is how many witnesses.
pub fn prepare(n: usize, rules: &[i32], arrangement: &mut [u16], witnesses: &mut [u16]) -> usize
    requires { SoundList n rules.now × (n ≤ max_variables) × (length arrangement.old ≡ arrangement_room) × (length witnesses.old ≡ max_clauses) }
    ensures { Prepared n rules.now arrangement.new witnesses.new result }
{
    walk_occurrences::arrange(n, rules, &mut *arrangement);
    writing::put_all(walk_occurrences::begins_of(&*arrangement), witnesses, 0);
    walk_occurrences::clause_count(&*arrangement)
}
