//! The nodes that gather points of several parents: `union` and `join`.
#![tactic(auto)]

mod groups;
mod joins;
mod laws;
mod queues;
mod results;
mod unions;

pub use groups::{JoinCell, JoinGroup};
pub use joins::Join;
pub use laws::{
    examples_of_joins, points_are_in_their_sets, renamed_points_change_groups,
    sets_wait_at_the_greatest_time,
};
pub use unions::Union;
