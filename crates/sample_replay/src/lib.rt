//! What a sample recording is good for: it is written, and a script is tried on it.
#![tactic(auto)]

mod counts;
mod fault;
mod records;
mod summaries;

pub use fault::SampleFault;
pub use records::write_samples;
pub use summaries::{Summary, summarize};
