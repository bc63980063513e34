//! The calls of stores, on any disk. A store that is spent answers as one whose disk fails.

use crate::records::has_form;
use kap_base::{Point, Points, Shared};
use kap_io::Disk;
use std::alloc::Global;
use store_records::{Rec, Transitions};
use topic_core::Topics;
use topic_store::{PointsReader, Store, StoreFault, make_store, open_store};

/// Makes a store.
pub fn make<D: Disk>(alloc: Global, disk: &mut D) -> Result<(), StoreFault> {
    make_store(alloc, disk)
}

/// Opens a store.
pub fn open<D: Disk>(alloc: Global, disk: &mut D) -> Result<Store, StoreFault> {
    open_store(alloc, disk)
}

/// What became of a record that was to be added.
#[derive(Drop)]
pub enum Added {
    /// It was added.
    Done,
    /// It wasn't, since the store is spent.
    Spent,
    /// It wasn't, since it hasn't the form of its kind.
    NoForm,
    /// The store refused it.
    Fault(StoreFault),
}

/// Adds a record.
pub fn add_record<D: Disk>(disk: &mut D, store: &mut Store, rec: &Rec) -> Added {
    if store.spent() {
        return Added::Spent;
    }
    if !has_form(rec) {
        return Added::NoForm;
    }
    let added = match rec {
        Rec::Batch { db, rp, points } => store.add_batch(disk, db, rp, points.as_slice()),
        _ => store.add(disk, rec),
    };
    match added {
        Ok(()) => Added::Done,
        Err(fault) => Added::Fault(fault),
    }
}

/// The points behind a number.
pub fn points_behind<D: Disk>(
    disk: &mut D,
    store: &Store,
    after: u64,
) -> Result<Points, StoreFault> {
    if store.spent() {
        return Err(StoreFault::DiskFault);
    }
    store.points(disk, after)
}

/// The transitions behind a number.
pub fn transitions_behind<D: Disk>(
    disk: &mut D,
    store: &Store,
    after: u64,
) -> Result<Transitions, StoreFault> {
    if store.spent() {
        return Err(StoreFault::DiskFault);
    }
    store.transitions(disk, after)
}

/// The topics behind so many transitions.
pub fn topics_behind<D: Disk>(
    disk: &mut D,
    store: &Store,
    number: u64,
) -> Result<Topics, StoreFault> {
    if store.spent() {
        return Err(StoreFault::DiskFault);
    }
    store.topics_behind(disk, number)
}

/// A piece that a reader of points gave, and the reader of the points behind it.
#[derive(Drop)]
pub struct Piece {
    pub points: Vec<Shared<Point>>,
    pub rest: PointsReader,
}

/// The next piece of a reader of points.
pub fn next_piece<D: Disk>(
    disk: &mut D,
    store: &Store,
    reader: PointsReader,
) -> Result<Piece, StoreFault> {
    if store.spent() {
        return Err(StoreFault::DiskFault);
    }
    let (points, rest) = reader.next(store, disk)?;
    Ok(Piece { points, rest })
}
