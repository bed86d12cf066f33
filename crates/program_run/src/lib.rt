// What the programs `rewrite`, `opb` and `nearest` have in common: what they do with their arguments, with
// their two files and with a text, and that they say why files are refused.
#![tactic(auto)]

ghost use Rattle.std.specs.Prelude.{ℕ, ◌^◌, ◌<◌, ◌≤◌, length};

use program_diagnostics::Source;
use program_options::Asked;
use std::rt::{Env, Files};

// A program: its name, how to call it, and what it prints for a rule file and a wish file.
pub trait Program {
    const NAME: &'static [u8];

    const USAGE: &'static [u8];

    // Whether its call asks that every rule has entries.
    const ASKS_ENTRIES: bool;

    // No text is longer.
    ghost longest: { ℕ };

    // Puts the text into the lent bytes, if it fits, and gives its length.
    fn print(rules: &[u8], wishes: &[u8], out: &mut [u8]) -> usize
        ensures { result ≤ longest };
}

// Does what the first argument asks for, or else the program's work.
pub fn start<P: Program, W: FnOnce()>(rt: &(impl Env + Print), err: &impl Print, work: W)
    requires { W.IsAlwaysCallable work }
{
    match program_options::first_asked(rt) {
        Some(Asked::Help) => program_options::print_help(rt, err, P::USAGE),
        Some(Asked::Version) => program_options::print_version(rt, err, P::NAME),
        None => work(),
    }
}

// The whole of a program that takes no file names: where it is given arguments, it says that it reads
// `rules.cnf` and `wish.txt` of the current folder, and it does.
pub fn run_in_folder<P: Program, const N: usize>(
    rt: &(impl Env + Files + Print),
    err: &impl Print,
    warning: &[u8],
)
    requires { (P.longest ≤ N) × (N < 2 ^ 63) }
{
    start::<P, _>(
        rt,
        err,
        ||
            requires { (P.longest ≤ N) × (N < 2 ^ 63) }
        {
            program_options::warn_of_arguments(rt, err, warning);
            run::<P, N>(rt, err, b"rules.cnf", b"wish.txt");
        },
    );
}

// Reads both files, and tells what comes of them, in space for the longest text.
pub fn run<P: Program, const N: usize>(
    rt: &(impl Files + Print),
    err: &impl Print,
    rules_path: &[u8],
    wish_path: &[u8],
)
    requires paths { (length rules_path.now ≤ 4096) × (length wish_path.now ≤ 4096) }
    requires room { (P.longest ≤ N) × (N < 2 ^ 63) }
{
    let mut rules = [0; program_input::SPACE];
    let mut wishes = [0; program_input::SPACE];
    let Some((k, w)) = program_input::read_files(
        rt,
        err,
        rules_path,
        wish_path,
        &mut rules,
        &mut wishes,
    ) else {
        return;
    };
    let rules = Source {
        name: rules_path,
        bytes: &rules[..k],
    };
    let wishes = Source {
        name: wish_path,
        bytes: &wishes[..w],
    };
    show::<P, N>(rt, err, rules.bytes, wishes.bytes);
    program_explain::explain_refusal(err, rules, wishes, P::ASKS_ENTRIES);
}

// Prints the answer.
fn show<P: Program, const N: usize>(out: &impl Print, err: &impl Print, rules: &[u8], wishes: &[u8])
    requires { (P.longest ≤ N) × (N < 2 ^ 63) }
{
    let mut text = [0; N];
    let n = P::print(rules, wishes, &mut text);
    program_failure::say_unless_printed(err, out.write_all(&text[..n]));
}
