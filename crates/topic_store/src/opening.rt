//! Opening a store.

ghost use Rattle.std.specs.Prelude.{◌≡◌, ◌≤◌, List, ℕ, [], false, length, IfOk, IfSome, IsTrue, OnOk};
ghost use Rattle.kap_io.specs.Disk.{OnlyIn};
ghost use Rattle.kap_io.specs.Moments.{Quiet};
ghost use Rattle.gate_log.specs.Readers.{GoesOn, HasRead};
ghost use Rattle.store_records.specs.Histories.{end_of};
ghost use Rattle.store_records.specs.declared.rec.Rec.{Rec};
ghost use Rattle.store_kept.specs.Keeping.{AreValid, kept_of};
ghost use Rattle.store_kept.specs.Taking.{Holds};
ghost use Rattle.topic_store.specs.Opening.{AddsOrNot, NamesOrNot, NextOrNot, ReadsOrNot, StoreCause};

use crate::fault::{StoreFault, fault_at, fault_in};
use gate_log::{BODY_LIMIT, Log, LogReader, read_head, read_log};
use kap_base::{Bytes, NoMemory};
use kap_io::{Disk, Part};
use std::alloc::Global;
use store_kept::{Kept, take_body};
use topic_core::Topics;

/// A log all of whose records were read, what is kept of them, and the topics of their transitions.
#[derive(Debug, Drop)]
pub(crate) struct Reached {
    pub(crate) log: Log,
    pub(crate) kept: Kept,
    pub(crate) topics: Topics,
}

/// The log that the head names.
fn read_current<D: Disk>(disk: &mut D) -> Result<Part, StoreFault>
    ensures found { IsTrue D.tells → NamesOrNot (D.seen disk.old) result }
    ensures quiet { IsTrue D.tells
        → Quiet D.seen D.moment D.may_leave D.left_since disk.old disk.new }
    ensures cause { StoreCause (D.faults disk.old) (D.faults disk.new) result }
{
    match read_head(disk) {
        Ok(run) if run % 2 == 0 => Ok(Part::Left),
        Ok(_) => Ok(Part::Right),
        Err(fault) => Err(fault_in(Part::Head, fault)),
    }
}

/// Syncs the head, so that nothing is pending, and finds the log that it names.
pub(crate) fn synced_head<D: Disk>(disk: &mut D) -> Result<Part, StoreFault>
    ensures found { IsTrue D.tells → NamesOrNot (D.seen disk.old) result }
    ensures durable { IsTrue D.tells → OnOk result
        (OnlyIn Part.Head (D.seen disk.old Part.Head) (D.may_leave disk.new)) }
    ensures quiet { IsTrue D.tells
        → Quiet D.seen D.moment D.may_leave D.left_since disk.old disk.new }
    ensures cause { StoreCause (D.faults disk.old) (D.faults disk.new) result }
{
    if disk.sync(Part::Head).is_err() {
        return Err(StoreFault::DiskFault);
    }
    let part = read_current(disk)?;
    Ok(part)
}

/// The next body of a log, with the offset of its gate. One that is too long isn't read.
fn next_body<D: Disk>(
    reader: &mut LogReader,
    disk: &mut D,
) -> Result<Option<(u64, Bytes)>, StoreFault>
    ensures next { IsTrue D.tells → (bodies : List (List ℕ))
        → HasRead bodies (D.seen disk.old) (D.may_leave disk.old) reader.old
        → NextOrNot bodies (D.seen disk.new) (D.may_leave disk.new) reader.old reader.new result }
    ensures goes_on { GoesOn reader.old reader.new result }
    ensures short { IfOk result (λ found. IfSome found (λ found. length found.1 ≤ BODY_LIMIT)) }
    ensures quiet { IsTrue D.tells
        → Quiet D.seen D.moment D.may_leave D.left_since disk.old disk.new }
    ensures cause { StoreCause (D.faults disk.old) (D.faults disk.new) result }
{
    match reader.next(disk) {
        Ok(found) => Ok(found),
        Err(fault) => Err(fault_at(reader, fault)),
    }
}

/// Takes in the record with this body, which isn't too long and whose gate stands at this offset, where it
/// may stand there; else `false`.
fn take_record(
    alloc: Global,
    gate: u64,
    body: &[u8],
    kept: &mut Kept,
    topics: &mut Topics,
) -> Result<bool, NoMemory>
    requires { length body.now ≤ BODY_LIMIT }
    ensures adds { (rs : List Rec) → Holds rs (kept_of kept.old) topics.old → gate ≡ end_of rs
        → IfOk result (AddsOrNot rs body.now (kept_of kept.new) topics.new) }
    ensures valid { AreValid (kept_of kept.old) → AreValid (kept_of kept.new) }
{
    take_body(alloc, gate, body, kept, topics)
}

/// Reads the records of a log, each once.
fn read_records<D: Disk>(
    alloc: Global,
    begun: LogReader,
    disk: &mut D,
) -> Result<Reached, StoreFault>
    ensures found { IsTrue D.tells → HasRead [] (D.seen disk.old) (D.may_leave disk.old) begun
        → ReadsOrNot begun.part (D.seen disk.old) (D.may_leave disk.new) result }
    ensures log { IfOk result (λ reached.
        (reached.log.part ≡ begun.part) × (reached.log.spent ≡ false)) }
    ensures valid { IfOk result (λ reached. AreValid (kept_of reached.kept)) }
    ensures quiet { IsTrue D.tells
        → Quiet D.seen D.moment D.may_leave D.left_since disk.old disk.new }
    ensures cause { StoreCause (D.faults disk.old) (D.faults disk.new) result }
{
    let mut reader = begun;
    let mut kept = Kept::new(alloc);
    let mut topics = Topics::new(alloc);
    'reading: while let Some((gate, body)) = next_body(&mut reader, disk)? {
        if !take_record(alloc, gate, body.as_slice(), &mut kept, &mut topics)? {
            return Err(StoreFault::NotStore {
                part: reader.part(),
                offset: gate,
            });
        }
    }
    Ok(Reached {
        log: reader.into_log(),
        kept,
        topics,
    })
}

/// The log in one of the files, and what is kept of its records.
pub(crate) fn open_part<D: Disk>(
    alloc: Global,
    disk: &mut D,
    part: Part,
) -> Result<Reached, StoreFault>
    ensures found { IsTrue D.tells
        → ReadsOrNot part (D.seen disk.old) (D.may_leave disk.new) result }
    ensures log { IfOk result (λ reached.
        (reached.log.part ≡ part) × (reached.log.spent ≡ false)) }
    ensures valid { IfOk result (λ reached. AreValid (kept_of reached.kept)) }
    ensures quiet { IsTrue D.tells
        → Quiet D.seen D.moment D.may_leave D.left_since disk.old disk.new }
    ensures cause { StoreCause (D.faults disk.old) (D.faults disk.new) result }
{
    match read_log(alloc, disk, part) {
        Ok(reader) => read_records(alloc, reader, disk),
        Err(fault) => Err(fault_in(part, fault)),
    }
}
