//! Scripts from their tokens, by one pass and a stack.
#![tactic(auto)]

mod chains;
mod fault;
mod lambda;
mod limits;
mod parser;
mod script;
mod stack;
mod state;
mod statements;
mod values;

pub use fault::{ParseFault, Want};
pub use limits::{DEPTH_LIMIT, OPERATOR_LIMIT, STATEMENT_LIMIT, limits_are_numbers};
pub use parser::{always_one, not_both, one_fault, one_tree, parse};
pub use script::{Chain, Joint, Links, Stmt, Tree, Val, Vals};
