//! Scripts as their canonical texts (Kapacitor 1.6 TICKscript language reference: Syntax).
#![tactic(auto)]

mod expr;
mod law;
mod literal;
mod script;

pub use law::{print_is_read_again, reread};
pub use script::print;
