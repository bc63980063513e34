//! `store read NUMBER`: the points behind a number as a reader gives them, piece by piece up to an empty one,
//! and whether the disk was asked for each; `store behind TOPIC NUMBERS`: the topics behind so many
//! transitions, by the count of these and the level of one.

use crate::store_calls::{next_piece, open, topics_behind};
use crate::texts::put_number;
use kap_base::{Bytes, NoMemory, Point, Shared, Text};
use kap_io::MemDisk;
use line_points::print_line;
use std::alloc::Global;
use topic_core::Topics;
use topic_store::{PointsReader, Store, StoreFault};

/// How many pieces are read at most.
const MOST: u32 = 1000;

/// Adds how many points a piece has, and the first and the last.
fn put_shared(alloc: Global, piece: &[Shared<Point>], to: &mut Bytes) -> Result<(), NoMemory> {
    put_number(alloc, "", piece.len() as u64, to)?;
    if let [first, .., last] = piece {
        to.append(b": ")?;
        to.append(print_line(alloc, first.value())?.as_slice())?;
        to.append(b" .. ")?;
        to.append(print_line(alloc, last.value())?.as_slice())?;
    }
    Ok(())
}

fn call_name(asked: bool) -> &'static [u8] {
    if asked { b", read; " } else { b", not read; " }
}

/// Adds the next piece, and gives the reader of the others; none behind an empty one.
fn put_next(
    alloc: Global,
    disk: &mut MemDisk,
    store: &Store,
    reader: PointsReader,
    to: &mut Bytes,
) -> Result<Option<PointsReader>, StoreFault> {
    let before = disk.calls().len();
    let piece = next_piece(disk, store, reader)?;
    put_shared(alloc, &piece.points, to)?;
    to.append(call_name(disk.calls().len() > before))?;
    if piece.points.is_empty() {
        return Ok(None);
    }
    Ok(Some(piece.rest))
}

/// Adds the points behind a number, as a reader gives them.
pub fn put_read(
    alloc: Global,
    disk: &mut MemDisk,
    after: u64,
    to: &mut Bytes,
) -> Result<(), StoreFault> {
    let store = open(alloc, disk)?;
    let mut reader = store.read_points(after);
    for _ in 0..MOST {
        match put_next(alloc, disk, &store, reader, to)? {
            Some(rest) => reader = rest,
            None => return Ok(()),
        }
    }
    Ok(())
}

/// Adds the level of a topic.
fn put_level(topics: &Topics, topic: &Text, to: &mut Bytes) -> Result<(), NoMemory> {
    match topics.level(topic) {
        Some(level) => to.append(level.name().as_bytes()),
        None => to.append(b"no topic"),
    }
}

/// Adds how many transitions there are behind the first ones, and the level of a topic then.
fn put_behind(
    alloc: Global,
    disk: &mut MemDisk,
    store: &Store,
    topic: &Text,
    number: u64,
    to: &mut Bytes,
) -> Result<(), StoreFault> {
    let topics = topics_behind(disk, store, number)?;
    put_number(alloc, "", topics.count(), to)?;
    to.push(b' ')?;
    put_level(&topics, topic, to)?;
    to.append(b"; ")?;
    Ok(())
}

/// The same, behind each of these numbers.
pub fn put_topics(
    alloc: Global,
    disk: &mut MemDisk,
    topic: &Text,
    numbers: &[u64],
    to: &mut Bytes,
) -> Result<(), StoreFault> {
    let store = open(alloc, disk)?;
    for number in numbers {
        put_behind(alloc, disk, &store, topic, *number, to)?;
    }
    Ok(())
}
