//! Tokens of a script (Kapacitor 1.6 TICKscript language reference: Syntax).
#![tactic(auto)]

mod bytes;
mod front;
mod lexer;
mod limits;
mod quote;
mod token;
mod unit;

pub use lexer::{lex, text_reads_in_one_way};
pub use limits::{DURATION_LIMIT, limit_is_a_number};
pub use token::{Kind, LexFault, Token, Tokens};
pub use unit::Unit;
