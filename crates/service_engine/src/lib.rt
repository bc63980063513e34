//! The engine of the service: an engine of tasks on a disk, with its patterns, as what stands under the lock.
#![tactic(auto)]

mod answering;
mod disk_engine;
mod faults;
mod leave;
mod making;
mod reading;
mod sends;
mod ways;

pub use disk_engine::{DiskEngine, Unopened};
pub use sends::send_engine;
