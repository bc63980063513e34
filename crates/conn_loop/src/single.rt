/// Why serving ended.
#[derive(Clone, Copy, Debug, PartialEq, Eq)]
pub enum SingleEnd {
    /// No more links come, and none is open.
    Closed,
    /// As many links came as there are numbers, and none is open.
    Spent,
    /// What tells which links may go on has failed.
    ReadyFailed,
    /// The door has failed.
    DoorFailed,
    /// Memory ran out.
    NoMemory,
}

/// What came of serving at a door.
#[derive(Clone, Copy, Debug, PartialEq, Eq)]
pub struct Single {
    /// How many links came.
    pub links: u64,
    /// Why it ended.
    pub end: SingleEnd,
}
