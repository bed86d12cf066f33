// What a program's first argument asks for instead of the program's work.
#![tactic(auto)]

ghost use Rattle.std.specs.Prelude.{◌≡◌};
ghost use Rattle.program_options.specs.Options.{asked_by};

use std::env::FillError;
use std::io;
use std::rt::Env;

// How to call the program, or which version it is.
#[derive(Clone, Copy)]
pub enum Asked {
    Help,
    Version,
}

// How many arguments the program was started with, its own name among them.
pub fn argument_count(env: &impl Env) -> usize {
    for i in 0..usize::MAX {
        if let Err(FillError::NotPresent) = env.arg(i, &mut []) {
            return i;
        }
    }
    usize::MAX
}

// What the first argument asks for. One that is absent or too long asks for nothing.
pub fn first_asked(env: &impl Env) -> Option<Asked> {
    let mut word = [0u8; 4096];
    match env.arg(1, &mut word) {
        Ok(k) => asked_by(&word[..k]),
        Err(_) => None,
    }
}

// What a word asks for.
fn asked_by(word: &[u8]) -> Option<Asked>
    ensures { result ≡ asked_by word.now }
{
    if word == b"--help".as_slice() {
        return Some(Asked::Help);
    }
    if word == b"--version".as_slice() {
        return Some(Asked::Version);
    }
    None
}

// Prints how to call the program, and what all programs have in common.
pub fn print_help(out: &impl Print, err: &impl Print, usage: &[u8]) {
    program_failure::say_unless_printed(err, write_help(out, usage));
}

fn write_help(out: &impl Print, usage: &[u8]) -> io::Result<()> {
    out.write_all(usage)?;
    out.write_all(
        b"If the files are refused, a number and a place are printed instead, and a line on standard\nerror says where, what is wrong and what would be right.\n\n  --help     prints this\n  --version  prints the version\n",
    )
}

// Says on standard error what a program that takes no file names reads, if it was given arguments.
pub fn warn_of_arguments(env: &impl Env, err: &impl Print, warning: &[u8]) {
    if 1 < argument_count(env) {
        let _ = err.write_all(warning);
    }
}

// Prints the program's name and the library's with its version.
pub fn print_version(out: &impl Print, err: &impl Print, program: &[u8]) {
    program_failure::say_unless_printed(err, write_version(out, program));
}

fn write_version(out: &impl Print, program: &[u8]) -> io::Result<()> {
    out.write_all(program)?;
    out.write_all(b" (Powhanire) ")?;
    out.write_all(&version::text())?;
    out.write_all(b"\n")
}
