use kap_base::{Names, Text};

/// A task as lines name it.
#[derive(Debug, Drop)]
pub struct TaskNames {
    /// Its id.
    pub id: Text,
    /// The names of its nodes, by their numbers.
    pub nodes: Names,
}
