//! Records read back.

ghost use Rattle.std.specs.Prelude.{◌≡◌, ◌<◌, ◌++◌, List, ℕ, false, length, map, IfErr, IfOk, IfSome, IsTrue};
ghost use Rattle.kap_io.specs.Moments.{Quiet};
ghost use Rattle.gate_log.specs.Bodies.{bytes_of};
ghost use Rattle.gate_log.specs.Logs.{Rests};
ghost use Rattle.store_records.specs.Histories.{Follow, end_of};
ghost use Rattle.store_records.specs.Records.{spell_record};
ghost use Rattle.store_records.specs.declared.rec.Rec.{Rec};
ghost use Rattle.topic_store.specs.Faults.{IsPlacedAt};
ghost use Rattle.topic_store.specs.Opening.{StoreCause};
ghost use Rattle.topic_store.specs.Snapshots.{LastSnap, StatesOrNot, states_in};
ghost use Rattle.topic_store.specs.Stored.{BodyOrNot, RecordOrNot};

use crate::fault::{StoreFault, fault_in};
use gate_log::Log;
use kap_base::Bytes;
use kap_io::Disk;
use std::alloc::Global;
use store_records::{Rec, known_record};

/// That no record of a store stands at this gate of the log, on a disk that doesn't tell what a read gives.
pub(crate) fn no_record(log: &Log, gate: u64) -> StoreFault
    ensures { result ≡ StoreFault.NotStore log.now.part gate }
{
    StoreFault::NotStore {
        part: log.part(),
        offset: gate,
    }
}

/// The body behind a gate of a log, and the next gate; none at the closed gate.
pub(crate) fn body_at<D: Disk>(
    log: &Log,
    disk: &mut D,
    gate: u64,
) -> Result<Option<(Bytes, u64)>, StoreFault>
    requires { log.now.spent ≡ false }
    ensures found { IsTrue D.tells → (before after : List (List ℕ))
        → Rests (before ++ after) (D.seen disk.old) (D.may_leave disk.old) log.now
        → gate ≡ length (bytes_of before) → BodyOrNot result after gate }
    ensures rises { IfOk result (λ found. IfSome found (λ found. gate < found.1)) }
    ensures place { IfErr result (IsPlacedAt log.now.part gate) }
    ensures quiet { IsTrue D.tells
        → Quiet D.seen D.moment D.may_leave D.left_since disk.old disk.new }
    ensures cause { StoreCause (D.faults disk.old) (D.faults disk.new) result }
{
    match log.body(disk, gate) {
        Ok(found) => Ok(found),
        Err(fault) => Err(fault_in(log.part(), fault)),
    }
}

/// The record behind a gate of a store's log, and the next gate; none at the closed gate. That the body is a
/// record's was seen when the store was opened, and isn't tested again.
pub(crate) fn record_at<D: Disk>(
    alloc: Global,
    log: &Log,
    disk: &mut D,
    gate: u64,
) -> Result<Option<(Rec, u64)>, StoreFault>
    requires { log.now.spent ≡ false }
    ensures found { IsTrue D.tells → (rs before after : List Rec) → Follow rs
        → Rests (map spell_record rs) (D.seen disk.old) (D.may_leave disk.old) log.now
        → rs ≡ before ++ after → gate ≡ end_of before → RecordOrNot result before after }
    ensures rises { IfOk result (λ found. IfSome found (λ found. gate < found.1)) }
    ensures place { IfErr result (IsPlacedAt log.now.part gate) }
    ensures quiet { IsTrue D.tells
        → Quiet D.seen D.moment D.may_leave D.left_since disk.old disk.new }
    ensures cause { StoreCause (D.faults disk.old) (D.faults disk.new) result }
{
    let Some((body, next)) = body_at(log, disk, gate)? else {
        return Ok(None);
    };
    match known_record(alloc, body.as_slice())? {
        Some(rec) => Ok(Some((rec, next))),
        None => Err(no_record(log, gate)),
    }
}

/// The states of a snapshot.
fn states_of(rec: Rec) -> Option<Bytes>
    ensures { result ≡ states_in rec }
{
    match rec {
        Rec::Snap { states, .. } => Some(states),
        _ => None,
    }
}

/// The states of the snapshot whose record's gate stands at this offset.
pub(crate) fn states_at<D: Disk>(
    alloc: Global,
    log: &Log,
    disk: &mut D,
    gate: u64,
) -> Result<Bytes, StoreFault>
    requires { log.now.spent ≡ false }
    ensures found { IsTrue D.tells → (rs : List Rec) (snap : LastSnap rs) → Follow rs
        → Rests (map spell_record rs) (D.seen disk.old) (D.may_leave disk.old) log.now
        → gate ≡ end_of snap.before → StatesOrNot snap.states result }
    ensures place { IfErr result (IsPlacedAt log.now.part gate) }
    ensures quiet { IsTrue D.tells
        → Quiet D.seen D.moment D.may_leave D.left_since disk.old disk.new }
    ensures cause { StoreCause (D.faults disk.old) (D.faults disk.new) result }
{
    let Some((rec, _)) = record_at(alloc, log, disk, gate)? else {
        return Err(no_record(log, gate));
    };
    match states_of(rec) {
        Some(states) => Ok(states),
        None => Err(no_record(log, gate)),
    }
}
