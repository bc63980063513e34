//! `store points NUMBERS` and `store transitions NUMBERS`: those behind each number, by their count, the
//! first and the last, and whether they follow one another; `store calls NUMBERS`: the calls of the disk that
//! these points take.

use crate::store_calls::{open, points_behind, transitions_behind};
use crate::texts::put_number;
use case_text::put_shown;
use kap_base::{Bytes, NoMemory, Point};
use kap_io::{Disk, DiskCall, DiskWork, Failed, MemDisk, Part};
use line_points::print_line;
use std::alloc::Global;
use topic_core::{Transition, print_transition};
use topic_store::{Store, StoreFault};

/// Whether the times of points follow one another.
fn times_follow(points: &[Point]) -> bool {
    let Some((first, others)) = points.split_first() else {
        return true;
    };
    let mut time = first.time;
    for point in others {
        if point.time != time.wrapping_add(1) {
            return false;
        }
        time = point.time;
    }
    true
}

/// Adds a point behind these bytes.
fn put_point(alloc: Global, before: &[u8], point: &Point, to: &mut Bytes) -> Result<(), NoMemory> {
    to.append(before)?;
    to.append(print_line(alloc, point)?.as_slice())
}

/// Adds the first and the last of points, or the only one.
fn put_ends(alloc: Global, points: &[Point], to: &mut Bytes) -> Result<(), NoMemory> {
    match points {
        [] => Ok(()),
        [only] => put_point(alloc, b": ", only, to),
        [first, .., last] => {
            put_point(alloc, b": ", first, to)?;
            put_point(alloc, b" .. ", last, to)
        }
    }
}

/// Adds how many points come behind a number, and the first and the last.
fn put_points(
    alloc: Global,
    disk: &mut MemDisk,
    store: &Store,
    after: u64,
    to: &mut Bytes,
) -> Result<(), StoreFault> {
    let piece = points_behind(disk, store, after)?;
    put_number(alloc, "", piece.len() as u64, to)?;
    put_ends(alloc, piece.as_slice(), to)?;
    if !times_follow(piece.as_slice()) {
        to.append(b" not in order")?;
    }
    Ok(())
}

/// How many of these calls read from a place up to an offset.
fn count_before(calls: &[DiskCall], offset: u64) -> usize {
    let mut count = 0usize;
    for call in calls {
        if let DiskWork::Read { at, .. } = &call.work {
            if *at <= offset {
                count = count.saturating_add(1);
            }
        }
    }
    count
}

/// The length of a file.
fn size_of<D: Disk>(disk: &mut D, part: Part) -> Result<u64, Failed> {
    disk.size(part)
}

/// Adds how many calls it takes to give the points behind a number, and how many of them read in the first
/// half of the log.
fn put_calls(
    alloc: Global,
    disk: &mut MemDisk,
    store: &Store,
    after: u64,
    to: &mut Bytes,
) -> Result<(), StoreFault> {
    let middle = size_of(disk, store.part())? / 2;
    let before = disk.calls().len();
    let _ = points_behind(disk, store, after)?;
    let calls = disk.calls();
    let (_, since) = calls.split_at(before.min(calls.len()));
    put_number(alloc, "", since.len() as u64, to)?;
    put_number(alloc, " calls, ", count_before(since, middle) as u64, to)?;
    to.append(b" in the first half")?;
    Ok(())
}

/// Whether the numbers of transitions follow one another.
fn numbers_follow(transitions: &[Transition]) -> bool {
    let Some((first, others)) = transitions.split_first() else {
        return true;
    };
    let mut number = first.number;
    for transition in others {
        if transition.number != number.wrapping_add(1) {
            return false;
        }
        number = transition.number;
    }
    true
}

/// Adds a transition behind these bytes.
fn put_told(
    alloc: Global,
    before: &[u8],
    transition: &Transition,
    to: &mut Bytes,
) -> Result<(), NoMemory> {
    to.append(before)?;
    put_shown(print_transition(alloc, transition)?.as_slice(), to)
}

/// Adds the first and the last of transitions, or the only one.
fn put_told_ends(
    alloc: Global,
    transitions: &[Transition],
    to: &mut Bytes,
) -> Result<(), NoMemory> {
    match transitions {
        [] => Ok(()),
        [only] => put_told(alloc, b": ", only, to),
        [first, .., last] => {
            put_told(alloc, b": ", first, to)?;
            put_told(alloc, b" .. ", last, to)
        }
    }
}

/// Adds how many transitions come behind a number, and the first and the last.
fn put_transitions(
    alloc: Global,
    disk: &mut MemDisk,
    store: &Store,
    after: u64,
    to: &mut Bytes,
) -> Result<(), StoreFault> {
    let piece = transitions_behind(disk, store, after)?;
    put_number(alloc, "", piece.len() as u64, to)?;
    put_told_ends(alloc, piece.as_slice(), to)?;
    if !numbers_follow(piece.as_slice()) {
        to.append(b" not in order")?;
    }
    Ok(())
}

/// Adds a piece of points or transitions, or the calls that one takes.
fn put_piece(
    alloc: Global,
    disk: &mut MemDisk,
    store: &Store,
    kind: &str,
    after: u64,
    to: &mut Bytes,
) -> Result<(), StoreFault> {
    match kind {
        "points" => put_points(alloc, disk, store, after, to),
        "calls" => put_calls(alloc, disk, store, after, to),
        _ => put_transitions(alloc, disk, store, after, to),
    }
}

/// Adds the pieces behind these numbers.
pub fn put_pieces(
    alloc: Global,
    disk: &mut MemDisk,
    kind: &str,
    numbers: &[u64],
    to: &mut Bytes,
) -> Result<(), StoreFault> {
    let store = open(alloc, disk)?;
    for after in numbers {
        put_piece(alloc, disk, &store, kind, *after, to)?;
        to.append(b"; ")?;
    }
    Ok(())
}
