//! The JSON texts of replies, and the replies that have them.
#![tactic(auto)]

mod laws;
mod replies;
mod tasks;
mod topics;

pub use laws::texts_are_read_back;
pub use replies::{done_reply, no_memory_reply};
pub use tasks::{task_reply, tasks_reply};
pub use topics::{topic_reply, topics_reply};
