//! Recordings: points as groups of three lines, read from a source in whatever pieces it gives.
#![tactic(auto)]

mod fault;
mod feeds;
mod got;
mod group;
mod laws;
mod lines;
mod print;
mod reader;
mod window;

pub use fault::RecFault;
pub use laws::{
    limit_of_recordings, readings_go_on, recordings_are_groups, records_are_read_again,
};
pub use lines::RECORDING_LIMIT;
pub use print::print_record;
pub use reader::Reader;
