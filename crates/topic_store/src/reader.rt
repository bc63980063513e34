//! Reading a store's points, each record once.

ghost use Rattle.std.specs.Prelude.{◌≡◌, ◌<◌, ◌≤◌, ◌++◌, [], List, IfErr, IfOk, IsTrue, OnOk, false, length, map};
ghost use Rattle.kap_base.specs.Points.{PointValue};
ghost use Rattle.kap_io.specs.Moments.{Quiet};
ghost use Rattle.gate_log.specs.Logs.{Rests};
ghost use Rattle.store_records.specs.Histories.{Follow};
ghost use Rattle.store_records.specs.Records.{spell_record};
ghost use Rattle.store_records.specs.declared.rec.Rec.{Rec};
ghost use Rattle.topic_store.specs.Faults.{IsPlacedAt, IsPlacedFrom};
ghost use Rattle.topic_store.specs.Opening.{StoreCause};
ghost use Rattle.topic_store.specs.Points.{GivesOrNot, IsBefore, IsBeforeOrNot, state_of};
ghost use Rattle.topic_store.specs.Stores.{IsOn};

use crate::fault::StoreFault;
use crate::pieces::{Numbered, PIECE_LIMIT, Start, put_behind};
use crate::store::Store;
use crate::stored::{no_record, record_at};
use gate_log::Log;
use kap_base::{NoMemory, Point, Shared};
use kap_io::Disk;
use std::alloc::Global;
use std::marker::Model;

/// Points that were read, and where reading goes on.
#[derive(Debug, Drop)]
pub(crate) struct Ahead {
    pub(crate) points: Vec<Shared<Point>>,
    /// The gate of the next record.
    pub(crate) gate: u64,
    /// How many of the points from that record on come before the next one.
    pub(crate) skip: u64,
    /// How many points from there on are still to be read.
    pub(crate) left: u64,
}

/// A reader of a store's points, in the order in which they were stored, which reads each record once. It
/// gives the points that were there when it was made. After a fault it is gone.
#[derive(Debug, Drop)]
pub struct PointsReader {
    alloc: Global,
    ahead: Ahead,
}

impl Model for PointsReader {
    ghost use Rattle.std.specs.Coded.{codes};
    ghost use Rattle.kap_base.specs.Maps.{key_map_code};
    ghost use Rattle.topic_store.specs.Points.{PointsState, state_of};

    ghost Value = { PointsState };

    ghost coded = { Prim.hlevel (codes, key_map_code) };

    ghost view = { λ r. state_of r.ahead };
}

/// Appends points, each with one owner.
fn put_shared(
    alloc: Global,
    points: Vec<Point>,
    shared: &mut Vec<Shared<Point>>,
) -> Result<(), NoMemory>
    ensures { OnOk result (shared.new.items ≡ shared.old.items ++ points.items) }
{
    'sharing: for point in points {
        shared.push(Shared::new(alloc, point)?)?;
    }
    Ok(())
}

/// Reads one record more.
fn read_more<D: Disk>(
    alloc: Global,
    log: &Log,
    disk: &mut D,
    from: Ahead,
) -> Result<Ahead, StoreFault>
    requires usable { log.now.spent ≡ false }
    requires some { 0 < from.left }
    ensures found { IsTrue D.tells → (rs : List Rec) (points : List PointValue) → Follow rs
        → Rests (map spell_record rs) (D.seen disk.old) (D.may_leave disk.old) log.now
        → IsBefore rs points (state_of from) → IsBeforeOrNot rs points result }
    ensures rises { IfOk result (λ ahead. from.gate < ahead.gate) }
    ensures place { IfErr result (IsPlacedAt log.now.part from.gate) }
    ensures quiet { IsTrue D.tells
        → Quiet D.seen D.moment D.may_leave D.left_since disk.old disk.new }
    ensures cause { StoreCause (D.faults disk.old) (D.faults disk.new) result }
{
    let Some((rec, next)) = record_at(alloc, log, disk, from.gate)? else {
        return Err(no_record(log, from.gate));
    };
    let items = Point::stored_in(alloc, rec);
    let count = items.len() as u64;
    let mut points = Vec::new(alloc);
    put_behind(items, from.skip, from.left as usize, &mut points)?;
    let left = from.left.saturating_sub(points.len() as u64);
    let mut ahead = from.points;
    put_shared(alloc, points, &mut ahead)?;
    Ok(Ahead {
        points: ahead,
        gate: next,
        skip: from.skip.saturating_sub(count),
        left,
    })
}

/// Reads records until there are enough points for a piece, or no more.
fn fill<D: Disk>(alloc: Global, log: &Log, disk: &mut D, from: Ahead) -> Result<Ahead, StoreFault>
    requires usable { log.now.spent ≡ false }
    ensures found { IsTrue D.tells → (rs : List Rec) (points : List PointValue) → Follow rs
        → Rests (map spell_record rs) (D.seen disk.old) (D.may_leave disk.old) log.now
        → IsBefore rs points (state_of from) → IsBeforeOrNot rs points result }
    ensures full { IfOk result (λ ahead. 0 < ahead.left → 4096 ≤ length ahead.points.items) }
    ensures place { IfErr result (IsPlacedFrom log.now.part from.gate) }
    ensures quiet { IsTrue D.tells
        → Quiet D.seen D.moment D.may_leave D.left_since disk.old disk.new }
    ensures cause { StoreCause (D.faults disk.old) (D.faults disk.new) result }
{
    let mut ahead = from;
    'filling: while 0 < ahead.left {
        if PIECE_LIMIT as usize <= ahead.points.len() {
            break;
        }
        ahead = read_more(alloc, log, disk, ahead)?;
    }
    Ok(ahead)
}

impl PointsReader {
    /// A reader that begins there, of so many points.
    pub(crate) fn new(alloc: Global, start: Start, left: u64) -> PointsReader
        ensures { result ≡ record { points = []; gate = start.gate; skip = start.skip; left = left } }
    {
        PointsReader {
            alloc,
            ahead: Ahead {
                points: Vec::new(alloc),
                gate: start.gate,
                skip: start.skip,
                left,
            },
        }
    }

    /// The next 4,096 points, or all where there are no more, and the reader of those behind them; no points
    /// exactly where there are none. The store is the one of which it was made. `DiskFault` comes only where
    /// the disk's count of faults rose in this call, and `NoMemory` where memory ran out. `NotStore` comes
    /// only on a disk that doesn't tell what a read gives, at a record that is none: at the gate that comes
    /// next, or behind it.
    pub fn next<D: Disk>(
        self,
        store: &Store,
        disk: &mut D,
    ) -> Result<(Vec<Shared<Point>>, PointsReader), StoreFault>
        requires usable { store.now.log.spent ≡ false }
        ensures points { IsTrue D.tells → (rs : List Rec) (points : List PointValue)
            → IsOn rs (D.seen disk.old) (D.may_leave disk.old) store.now
            → IsBefore rs points self → GivesOrNot rs points result }
        ensures few { IfOk result (λ given. length given.0.items ≤ 4096) }
        ensures place { IfErr result (IsPlacedFrom store.now.log.part self.gate) }
        ensures quiet { IsTrue D.tells
            → Quiet D.seen D.moment D.may_leave D.left_since disk.old disk.new }
        ensures cause { StoreCause (D.faults disk.old) (D.faults disk.new) result }
    {
        let alloc = self.alloc;
        let filled = fill(alloc, &store.log, disk, self.ahead)?;
        let mut piece = filled.points;
        let count = piece.len().min(PIECE_LIMIT as usize);
        let points = piece.split_off(count)?;
        let ahead = Ahead {
            points,
            gate: filled.gate,
            skip: filled.skip,
            left: filled.left,
        };
        Ok((piece, PointsReader { alloc, ahead }))
    }
}
