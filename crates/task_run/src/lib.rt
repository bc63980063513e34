//! What the nodes of lives give of whole lists of points: plans of lives, and laws.
#![tactic(auto)]

mod laws;
mod plans;

use kap_base::ItemList;
pub use laws::{courses_go_on, effects_go_on, merging_orders, nodes_give_by_parents};
pub use plans::LifePlan;

/// The numbers of nodes.
pub type Ids = ItemList<u32>;

/// Counts of the nodes of each life.
pub type Counts = ItemList<ItemList<u64>>;
