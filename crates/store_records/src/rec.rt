//! The records of a store.

use kap_base::{Bytes, ItemList, Points, Text};
use topic_core::Transition;

/// A list of transitions.
pub type Transitions = ItemList<Transition>;

/// One record of a store's log.
#[derive(Debug, Drop)]
pub enum Rec {
    /// A task is there from now on.
    Define {
        /// Its id.
        id: Text,
        /// Its script.
        script: Text,
        /// Whether it is enabled from the first on.
        enabled: bool,
    },
    /// The task of this id is enabled.
    Enable {
        /// The task's id.
        id: Text,
    },
    /// The task of this id is disabled.
    Disable {
        /// The task's id.
        id: Text,
    },
    /// The task of this id is gone.
    Delete {
        /// The task's id.
        id: Text,
    },
    /// Points of one database and policy, ungrouped, behind those that were stored before.
    Batch {
        /// The database.
        db: Text,
        /// The retention policy.
        rp: Text,
        /// The points, in their order.
        points: Points,
    },
    /// Transitions of topics, behind those that were stored before.
    Trans(Transitions),
    /// The states of the cells of the open lives' graphs.
    Snap {
        /// How many points were stored before.
        points: u64,
        /// How many transitions were stored before.
        trans: u64,
        /// The number of cells in 4 bytes, and the state of each as a byte string.
        states: Bytes,
    },
}
