// Nearest: the least number of broken wishes with the first choice that meets all rules and breaks so
// many, or none when the rules can't be met.
#![tactic(auto)]

ghost use Rattle.std.specs.Prelude.{◌≡◌, ◌≤◌, length, take, None};
ghost use Rattle.choices.specs.Choices.{Model};
ghost use Rattle.distance.specs.Distance.{disagreement};
ghost use Rattle.formula.specs.Formula.{clauses};
ghost use Rattle.wish.specs.Wish.{total_weight};
ghost use Rattle.search_state.specs.Ready.{Ready, Startable};
ghost use Rattle.search_meaning.specs.Answers.{reply_of, NearestMeans};
ghost use Rattle.search_meaning.specs.Searches.{nearest_reply, nearest_answer, nearest_choice, broken_by, choice_after};
ghost use Rattle.walk_witnesses.specs.Witnesses.{Witnesses};
ghost use Rattle.search_nearest.specs.Least.{Least};

use refusal::Refusal;

// Searches from what was lent; a choice that is found goes to the first n bytes of the lent choice.
pub fn search(
    n: usize,
    rules: &[i32],
    row: &[u8],
    choice: &mut [u8],
) -> Result<Option<usize>, Refusal>
    ensures reply { reply_of result ≡ nearest_reply n rules.now row.now (length choice.old) }
    ensures output { choice.new ≡ nearest_choice n rules.now row.now choice.old }
    ensures meaning { NearestMeans n rules.now row.now choice.new result }
{
    let admitted = admission::admit_wishes(n, rules, row, 0);
    let counts = admission_steps::with_room(admitted, n, choice.len())?;
    Ok(first_nearest(n, rules, row, counts.weight, choice))
}

// Makes the tables and prepares them, once for all that follows.
fn first_nearest(
    n: usize,
    rules: &[i32],
    row: &[u8],
    total: usize,
    choice: &mut [u8],
) -> Option<usize>
    requires { Startable n rules.now (length choice.old) × (total ≡ total_weight row.now) }
    ensures answer { result ≡ broken_by (nearest_answer n rules.now row.now) }
    ensures output { choice.new ≡ choice_after None (nearest_answer n rules.now row.now) n choice.old }
{
    let mut arrangement = [0u16; 50282];
    let mut witnesses = [0u16; 9000];
    let mut a = [0u8; 640];
    let mut trail = [0u16; 640];
    let mut weights = [0u64; 1923];
    let many = search_state::prepare(n, rules, &mut arrangement, &mut witnesses);
    // what n variables need of the table: the weighing clears what it is lent
    let places = 3 * n + 3;
    nearest_with(
        rules,
        &arrangement,
        row,
        total,
        &mut a[..n],
        &mut trail[..n],
        &mut witnesses[..many],
        &mut weights[..places],
        choice,
    )
}

// One walk with all that the wishes weigh for a limit, which no choice exceeds, tells whether the rules can be
// met. Then the least count is found, and the first choice that has it: as none has less, the first within it.
#[tactic(auto, using(crate::specs::First::unmet_answered, crate::specs::First::unmet_written))]
fn nearest_with(
    rules: &[i32],
    arrangement: &[u16],
    row: &[u8],
    total: usize,
    a: &mut [u8],
    trail: &mut [u16],
    witnesses: &mut [u16],
    weights: &mut [u64],
    choice: &mut [u8],
) -> Option<usize>
    requires trail_len { (length trail.old ≡ length a.old) × Ready rules.now arrangement.now witnesses.old (length a.old) (length weights.old) }
    requires a_in_bounds { (length a.old ≤ length choice.old) × (total ≡ total_weight row.now) }
    ensures answer { result ≡ broken_by (nearest_answer (length a.old) rules.now row.now) }
    ensures output { choice.new ≡ choice_after None (nearest_answer (length a.old) rules.now row.now) (length a.old) choice.old }
{
    let tried = walk_root::walk_from_root(
        rules,
        arrangement,
        row,
        total,
        a,
        trail,
        witnesses,
        weights,
    );
    let most = tried.found?;
    search_state::copy_to(a, choice);
    let least = least_count(
        rules,
        arrangement,
        row,
        most,
        a,
        trail,
        witnesses,
        weights,
        choice,
    );
    nearest_first_choice::make_first(
        rules,
        arrangement,
        row,
        least,
        a,
        trail,
        witnesses,
        weights,
        choice,
    );
    Some(least)
}

// A choice begins with a model that breaks no more than `most`; one that breaks the fewest wishes takes its place.
// Limits below the root's bound have none; from there on they are searched one after the other, up to `most`. Where
// none of these finds, the choice at hand has the least count.
fn least_count(
    rules: &[i32],
    arrangement: &[u16],
    row: &[u8],
    most: usize,
    a: &mut [u8],
    trail: &mut [u16],
    witnesses: &mut [u16],
    weights: &mut [u64],
    choice: &mut [u8],
) -> usize
    requires trail_len { (length trail.old ≡ length a.old) × Ready rules.now arrangement.now witnesses.old (length a.old) (length weights.old) }
    requires a_in_bounds { (length a.old ≤ length choice.old) × Model (length a.old) (clauses rules.now) (take (length a.old) choice.old) × (disagreement row.now (take (length a.old) choice.old) ≤ most) }
    ensures least { Least (length a.old) (clauses rules.now) row.now choice.old choice.new result }
    ensures witness { Witnesses rules.now witnesses.new }
{
    let bound = nearest_root::root_bound(rules, arrangement, row, a, trail);
    for d in bound..most {
        if nearest_root::search_within(
            rules,
            arrangement,
            row,
            d,
            a,
            trail,
            witnesses,
            weights,
            choice,
        ) {
            return d;
        }
    }
    most
}
