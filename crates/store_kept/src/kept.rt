//! What a store keeps of its records.

ghost use Rattle.std.specs.Prelude.{◌≡◌};
ghost use Rattle.store_kept.specs.Keeping.{kept_nothing, kept_of};

use std::alloc::Global;
use store_records::{Life, Snapshot, StoredTask};

/// A record's place: the offset of its gate, and how many points and transitions are stored before it.
#[derive(Clone, Copy, Debug, PartialEq, Eq)]
pub struct Mark {
    /// The offset of the gate.
    pub gate: u64,
    /// How many points are stored before.
    pub points: u64,
    /// How many transitions are stored before.
    pub transitions: u64,
}

/// What is kept: the tasks, lives and numbers of a store, and the places of some records, one about every
/// 4,096 points or transitions.
#[derive(Debug, Drop)]
pub struct Kept {
    /// The tasks in byte order of their ids.
    pub tasks: Vec<StoredTask>,
    /// The lives in the order of their beginning.
    pub lives: Vec<Life>,
    /// How many points are stored.
    pub points: u64,
    /// How many transitions are stored.
    pub transitions: u64,
    /// How many records there are of the kinds that clients ask for.
    pub changes: u64,
    /// The last snapshot.
    pub snap: Option<Snapshot>,
    /// Places of some of the records, rising.
    pub marks: Vec<Mark>,
}

impl Kept {
    /// Of a new store.
    pub fn new(alloc: Global) -> Kept
        ensures { kept_of result ≡ kept_nothing }
    {
        Kept {
            tasks: Vec::new(alloc),
            lives: Vec::new(alloc),
            points: 0,
            transitions: 0,
            changes: 0,
            snap: None,
            marks: Vec::new(alloc),
        }
    }
}
