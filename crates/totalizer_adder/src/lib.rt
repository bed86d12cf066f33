// The clauses of one group of the totalizer, written into a list that has room for them.
#![tactic(auto)]

mod clauses;
mod outputs;

pub use clauses::{Adder, put_adder};
pub use outputs::{Outputs, output_of};
