// `nearest RULES WISH`, or `nearest` alone for `rules.cnf` and `wish.txt` of the current folder: prints
// the least number of broken wishes and the first choice, or the line of a refusal. What is printed is
// `nearest_printed` in program_nearest_text/specs/Printed.antt, and what is said of a refusal on standard error
// `diagnostic` in program_diagnostics/specs/Diagnostic.antt.
#![tactic(auto)]

ghost use Rattle.std.specs.Prelude.{◌≤◌, length};
ghost use Rattle.program_solution_text.specs.Lines.{longest};

use program_run::Program;
use std::io;
use std::io::ErrorKind;
use std::rt::Env;

struct Nearest;

impl Program for Nearest {
    const NAME: &'static [u8] = b"nearest";

    const USAGE: &'static [u8] =
        b"usage: nearest [RULES WISH]\n\nPrints the least number of wishes that a permitted choice breaks, and the first such choice:\n`o` and the number, `s OPTIMUM FOUND`, and on `v` lines each setting's number, with a minus\nwhere it is off; or `s UNSATISFIABLE` where no choice meets the rules.\n\nRULES is a rule file and WISH a wish file, of at most 65536 bytes each; without them,\nrules.cnf and wish.txt of the current folder.\n";

    const ASKS_ENTRIES: bool = false;

    ghost longest = { longest };

    fn print(rules: &[u8], wishes: &[u8], out: &mut [u8]) -> usize {
        program_nearest_text::print_nearest(rules, wishes, out)
    }
}

fn main(rt: HostRuntime) {
    program_run::start::<Nearest, _>(&rt, &rt.stderr(), || run_files(&rt));
}

// Runs on the files of the current folder, or on those that the arguments name.
fn run_files(rt: &HostRuntime) {
    match program_options::argument_count(rt) {
        1 => run(rt, b"rules.cnf", b"wish.txt"),
        3 => run_named(rt),
        _ => {
            let _ = rt.stderr().write_all(b"usage: nearest [RULES WISH]\n");
        }
    }
}

// Runs on the files that the arguments name.
fn run_named(rt: &HostRuntime) {
    let mut rules = [0u8; 4096];
    let Ok(k) = rt.arg(1, &mut rules) else {
        return say_too_long(rt, b"RULES");
    };
    let mut wishes = [0u8; 4096];
    let Ok(w) = rt.arg(2, &mut wishes) else {
        return say_too_long(rt, b"WISH");
    };
    run(rt, &rules[..k], &wishes[..w]);
}

// Says that the name of a file is longer than any that is opened.
fn say_too_long(rt: &HostRuntime, argument: &[u8]) {
    let error = io::Error::new(ErrorKind::InvalidFilename, "File name too long");
    program_failure::say_failure(&rt.stderr(), argument, &error);
}

fn run(rt: &HostRuntime, rules_path: &[u8], wish_path: &[u8])
    requires { (length rules_path.now ≤ 4096) × (length wish_path.now ≤ 4096) }
{
    program_run::run::<Nearest, 2048>(rt, &rt.stderr(), rules_path, wish_path);
}
