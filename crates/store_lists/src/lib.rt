//! What a store holds is written, line by line and in pieces: its tasks, its topics, its transitions and its
//! points.
#![tactic(auto)]

mod fault;
mod laws;
mod lines;
mod lists;
mod topics;
mod writing;

pub use fault::ListFault;
pub use laws::exports_are_read_again;
pub use lists::{write_points, write_tasks, write_transitions};
pub use topics::write_topics;
