use crate::window::Window;
use kap_base::{Point, Shared};
use std::snapshot::Snapshot;

/// The bytes that were read, one piece behind the other: each what stands in a window behind so many bytes.
/// It has no contents: clauses alone see them.
#[derive(Drop)]
pub enum GotBytes {
    Start,
    More(Snapshot<GotBytes>, Snapshot<Window>, Snapshot<usize>),
}

/// The points that were given. It has no contents: clauses alone see them.
#[derive(Drop)]
pub enum GivenPoints {
    Start,
    More(Snapshot<GivenPoints>, Snapshot<Shared<Point>>),
}
