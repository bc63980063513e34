//! A log of bodies in one of the files of a disk. Each body stands behind a gate of its own, a byte that is
//! opened once the body is on the disk, so that a crash at any moment leaves the bodies that were
//! acknowledged, and of the next one all or nothing. And the head of a store, whose gates tell which of two
//! logs is the current one.
#![tactic(auto)]

mod append;
mod body;
mod fault;
mod head;
mod log;
mod mark;
mod open;
mod read;
mod reader;
mod start;
mod switching;

pub use fault::LogFault;
pub use head::{make_head, read_head};
pub use log::{BODY_LIMIT, Log, limit_is_a_number};
pub use open::open_log;
pub use reader::{LogReader, read_log};
pub use start::make;
pub use switching::switch;
