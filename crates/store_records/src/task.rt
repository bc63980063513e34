//! Tasks, their lives and the last snapshot, as a store holds them.

use kap_base::{ItemList, Text};

/// A task of a store.
#[derive(Debug, Drop)]
pub struct StoredTask {
    /// Its id.
    pub id: Text,
    /// Its script.
    pub script: Text,
    /// Whether it is enabled.
    pub enabled: bool,
    /// The offset of the gate of the record that defined it, in the current log.
    pub define_at: u64,
}

/// The time of a task from its enabling to its disabling or deletion.
#[derive(Debug, Drop)]
pub struct Life {
    /// The id of its task.
    pub task: Text,
    /// The script of its task.
    pub script: Text,
    /// The stamp of the first point that it may see: one more than the number of points at the enabling.
    pub first: u64,
    /// The stamp of its last point, which is the number of points at the end; `None` while it is open.
    pub last: Option<u64>,
    /// The offset of the gate of the record that defined its task, in the current log.
    pub define_at: u64,
}

/// Numbers of lives, from 1 in the order of their beginning.
pub type LifeNumbers = ItemList<u32>;

/// The last snapshot of a store.
#[derive(Debug, Drop)]
pub struct Snapshot {
    /// The offset of the gate of its record, in the current log.
    pub at: u64,
    /// How many points were stored before it.
    pub points: u64,
    /// How many transitions were stored before it.
    pub transitions: u64,
    /// The numbers of the lives that were open, rising.
    pub lives: LifeNumbers,
}
