// The walk of the wish search: document 000's search procedure, by Davis, Logemann and Loveland.
#![tactic(auto)]

mod search;

pub use search::attempt;
