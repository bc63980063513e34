//! A store over the gated log: tasks and their lives, points and transitions, and the last snapshot, one
//! record behind the other.
#![tactic(auto)]

mod behind;
mod copying;
mod fault;
mod opening;
mod pieces;
mod reader;
mod rewriting;
mod start;
mod store;
mod stored;

pub use fault::StoreFault;
pub use reader::PointsReader;
pub use start::make_store;
pub use store::{Store, open_store, open_with_topics};
