//! A connection as a machine between the bytes that come, what answers their requests, and the bytes that go
//! out. It takes no link: who drives it hands it the bytes that come and takes those that are due, so that
//! links that wait and links that are polled are driven by the same machine, proved once.
#![tactic(auto)]

mod dialog;
mod ending;
mod input;
mod laws;
mod output;
mod want;

pub use dialog::Dialog;
pub use ending::{DialogEnd, LinkEnd};
pub use input::HELD_LIMIT;
pub use laws::numbered_calls;
pub use output::JOINED_LIMIT;
pub use want::Want;
