use kap_base::{Fields, Group, Level, Tags, Text};

/// What a template is filled with.
#[derive(Debug, PartialEq, Eq, Drop)]
pub struct Facts {
    /// The id of the alert.
    pub id: Text,
    /// The measurement.
    pub name: Text,
    /// The id of the task.
    pub task: Text,
    /// The group.
    pub group: Group,
    /// The level.
    pub level: Level,
    /// The time, in nanoseconds from 1970-01-01T00:00:00Z on.
    pub time: i64,
    /// The tags.
    pub tags: Tags,
    /// The fields.
    pub fields: Fields,
}
