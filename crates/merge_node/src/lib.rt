//! The messages of a node's parents as one list: by stamp, then by parent, then by place, and each barrier
//! once.
#![tactic(auto)]

ghost use Rattle.std.specs.Prelude.{◌≡◌};

mod buffers;
mod fronts;
mod laws;
mod queue;

pub use buffers::MergeBuf;
pub use laws::{calls_give_the_merged_list, merging_orders};
pub use queue::Queue;

/// How many parents a node has at most.
pub const PARENT_LIMIT: u32 = 64;

/// The limit as a number of parents.
pub fn limit_is_a_number()
    ensures { PARENT_LIMIT ≡ 64 }
{}
