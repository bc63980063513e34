//! The node `eval`: lambdas whose values become fields of a point.
#![tactic(auto)]

mod counts;
mod eval;
mod evaluations;
mod fields;
mod laws;

pub use counts::Counts;
pub use eval::Eval;
pub use laws::{counts_are_evaluations, examples_of_evals};
