//! An edge between two nodes: a ring with room for a bounded number of messages, and what went over it since
//! the last load.
#![tactic(auto)]

ghost use Rattle.std.specs.Prelude.{◌≡◌, ◌^◌};

mod edges;
mod ends;
mod laws;
mod sends;

pub use edges::{pair, settle};
pub use ends::{Head, Tail};
pub use laws::settled_edges_tell;
pub use sends::{send_head, send_tail};

/// How many messages an edge has room for at most.
pub const CAPACITY_LIMIT: u32 = 65_536;

/// The limit as a number of messages.
pub fn limit_is_a_number()
    ensures { CAPACITY_LIMIT ≡ 2 ^ 16 }
{}
