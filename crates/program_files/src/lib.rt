// The two files that a program works on, read into a rule list and a wish row.
#![tactic(auto)]

mod print;

ghost use Rattle.std.specs.Prelude.{◌≡◌, ◌≤◌, length};
ghost use Rattle.program_files.specs.Problem.{problem};
ghost use Rattle.program_files.specs.Read.{problem_of, Sized};
ghost use Rattle.program_files.specs.declared.FileError.TheVariants.{Refused};

pub use print::{Answer, print_for};
use refusal::Refusal;

// How long a file may be that a program reads.
pub const MAX_FILE: usize = 65536;

// How long the longest sound rule list is, 31,000 literals and 9,000 closing zeros, and the longest wish
// row: space for what is read.
pub const LIST: usize = 40000;

pub const ROW: usize = 256;

// What the files give beside the list and the row: the number of variables, the lengths of both, and
// the limit.
#[derive(Clone, Copy, Debug, PartialEq, Eq)]
pub struct Sizes {
    pub variables: usize,
    pub length: usize,
    pub wished: usize,
    pub limit: usize,
}

// Why two files give nothing: one is too long, or refused.
#[derive(Clone, Copy, Debug, PartialEq, Eq)]
pub enum FileError {
    TooLong,
    Refused(Refusal),
}

impl From<Refusal> for FileError {
    ghost from_gives = { λ r e. e ≡ Refused r };

    fn from(r: Refusal) -> FileError {
        FileError::Refused(r)
    }
}

// Reads the rule file, then the wish file.
pub fn read_problem(
    rules_file: &[u8],
    wish_file: &[u8],
    rules: &mut [i32],
    row: &mut [u8],
) -> Result<Sizes, FileError>
    requires { (40000 ≤ length rules.old) × (256 ≤ length row.old) }
    ensures problem { problem_of result rules.new row.new ≡ problem rules_file.now wish_file.now }
    ensures sizes { Sized result (length rules.new) (length row.new) }
{
    if MAX_FILE < rules_file.len() || MAX_FILE < wish_file.len() {
        return Err(FileError::TooLong);
    }
    let counts = rule_file_reader::read_rules(rules_file, rules)?;
    let header = wish_file_reader::read_wishes(wish_file, row)?;
    Ok(Sizes {
        variables: counts.variables,
        length: counts.length,
        wished: header.variables,
        limit: header.limit,
    })
}
