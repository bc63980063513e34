//! A connection over a link that may have to wait, as a state that is polled by hand, and as a future.
#![tactic(auto)]

mod conn;
mod future;
mod link_io;
mod steps;
mod try_fault;

pub use conn::Conn;
pub use future::Talk;
pub use steps::{STEP_LIMIT, Step, take_step};
