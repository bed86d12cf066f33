// Reads `rules.cnf` and `wish.txt` of the current folder, and prints the rule file of the rewritten
// rules, or the line of a refusal. What is printed is `printed` in program_rewrite_text/specs/Printed.antt, and what
// is said of a refusal on standard error `diagnostic` in program_diagnostics/specs/Diagnostic.antt.
#![tactic(auto)]

ghost use Rattle.program_rewrite_text.specs.Printed.{longest};

use program_run::Program;

struct Rewrite;

impl Program for Rewrite {
    const NAME: &'static [u8] = b"rewrite";

    const USAGE: &'static [u8] =
        b"usage: rewrite\n\nPrints a rule file of plain rules: a choice can be completed to meet them exactly when it\nmeets the given rules and breaks no more wishes than the limit of the wish file.\n\nThe files are rules.cnf and wish.txt of the current folder, of at most 65536 bytes each.\n";

    const ASKS_ENTRIES: bool = false;

    ghost longest = { longest };

    fn print(rules: &[u8], wishes: &[u8], out: &mut [u8]) -> usize {
        program_rewrite_text::print_rewritten(rules, wishes, out)
    }
}

fn main(rt: HostRuntime) {
    program_run::run_in_folder::<Rewrite, 200015>(
        &rt,
        &rt.stderr(),
        b"rewrite: it takes no file names, and reads rules.cnf and wish.txt of the current folder\n",
    );
}
