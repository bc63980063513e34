//! The node `window`: which points of a group are given together, as batches (Kapacitor 1.6: window node).
#![tactic(auto)]

mod batches;
mod counted;
mod edges;
mod laws;
mod sliding;
mod spans;

pub use counted::{CountedGroup, CountedWindow};
pub use edges::{EdgeCell, EdgeGroup, EdgeWindow};
pub use laws::{edges_are_set_by_points, examples_of_windows};
pub use sliding::{SlidingCell, SlidingGroup, SlidingWindow};
pub use spans::period_of;
