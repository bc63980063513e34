//! The sample recording: a point for each number from 1 on, with which operators try scripts before they have
//! a recording.
#![tactic(auto)]

mod laws;
mod samples;

pub use laws::{limit_of_samples, sample_points_are_spelled, samples_are_a_recording};
pub use samples::{SAMPLE_LIMIT, sample_point};
