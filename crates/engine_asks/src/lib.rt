//! One ask of the service, answered by an engine: the reply, and the change that is asked for.
#![tactic(auto)]

mod answering;
mod changing;
mod defining;
mod faults;
mod tasks;
mod writing;

pub use answering::answer_ask;
