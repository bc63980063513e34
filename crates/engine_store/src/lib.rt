//! The stores of engines on their disks: whether a store is right by the scripts of its lives, its lives run
//! on its points from its last snapshot on, and transitions added to it.
#![tactic(auto)]

mod adding;
mod asking;
mod fault;
mod opening;

pub use adding::add_transitions;
pub use fault::{EngineFault, compile_fault};
pub use opening::run_store;

/// How many bytes the body of a record of transitions has at most before its last one.
pub const PIECE_LIMIT: u64 = 1_048_576;
