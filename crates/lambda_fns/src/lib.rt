//! The functions that lambda expressions call, and the calendar parts of a time.
#![tactic(auto)]

mod calls;
mod convert;
mod fault;
mod laws;
mod replace;
mod texts;
mod time;

pub use calls::call;
pub use fault::EvalFault;
pub use laws::{calls_are_typed, first_places_are_first, pieces_are_pieces};
pub use replace::{TEXT_LIMIT, limit_is_a_number};
pub use time::{parts_are_a_date, time_part};
