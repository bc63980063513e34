use kap_base::{Point, Shared};
use std::snapshot::Snapshot;

/// The points of the epochs so far, one epoch behind the other. It holds nothing: clauses alone see them.
#[derive(Drop)]
pub(crate) enum Trail {
    Start,
    More(Snapshot<Trail>, Snapshot<Vec<Shared<Point>>>),
}
