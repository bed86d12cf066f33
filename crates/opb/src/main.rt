// Reads `rules.cnf` and `wish.txt` of the current folder, and prints the rules, the wishes and the limit
// as an OPB file, or the line of a refusal. What is printed is `opb_printed` in
// program_opb_text/specs/Printed.antt, and what is said of a refusal on standard error `diagnostic` in
// program_diagnostics/specs/Diagnostic.antt.
#![tactic(auto)]

ghost use Rattle.opb_format.specs.Sizes.{longest};

use program_run::Program;

struct Opb;

impl Program for Opb {
    const NAME: &'static [u8] = b"opb";

    const USAGE: &'static [u8] =
        b"usage: opb\n\nPrints the rules, the wishes and their limit as an OPB file, for pseudo-Boolean solvers.\n\nThe files are rules.cnf and wish.txt of the current folder, of at most 65536 bytes each.\n";

    const ASKS_ENTRIES: bool = true;

    ghost longest = { longest };

    fn print(rules: &[u8], wishes: &[u8], out: &mut [u8]) -> usize {
        program_opb_text::print_opb(rules, wishes, out)
    }
}

fn main(rt: HostRuntime) {
    program_run::run_in_folder::<Opb, 165306>(
        &rt,
        &rt.stderr(),
        b"opb: it takes no file names, and reads rules.cnf and wish.txt of the current folder\n",
    );
}
