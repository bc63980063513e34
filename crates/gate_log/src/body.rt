//! Reading a body back.

ghost use Rattle.std.specs.Prelude.{◌≡◌, ◌<◌, ◌≤◌, ◌+◌, ◌^◌, ◌++◌, false, List, ℕ, length, IfErr, IfOk, IfSome, IsTrue};
ghost use Rattle.kap_io.specs.Moments.{Quiet};
ghost use Rattle.gate_log.specs.Bodies.{IsLog, bytes_of};
ghost use Rattle.gate_log.specs.Causes.{BodyCause, IsTornAt, NextCause};
ghost use Rattle.gate_log.specs.Logs.{Rests};
ghost use Rattle.gate_log.specs.Reading.{BodyAt, Fetched, RecordAt, ShortRecordAt};

use crate::fault::LogFault;
use crate::log::{BODY_LIMIT, Log};
use crate::read::{fill, next_gate};
use kap_base::Bytes;
use kap_io::{Disk, Part};
use std::alloc::Global;

/// The body behind a gate and its four bytes of length, which has so many bytes.
fn fetch<D: Disk>(
    alloc: Global,
    disk: &mut D,
    part: Part,
    gate: u64,
    count: u64,
) -> Result<Bytes, LogFault>
    requires { gate + 5 + count < 2 ^ 64 }
    ensures fetched { IsTrue D.tells → gate + 5 + count ≤ length (D.seen disk.old part)
        → Fetched (gate + 5) count (D.seen disk.old part) result }
    ensures size { IfOk result (λ bytes. length bytes ≡ count) }
    ensures torn { IfErr result (IsTornAt gate) }
    ensures quiet { IsTrue D.tells
        → Quiet D.seen D.moment D.may_leave D.left_since disk.old disk.new }
    ensures cause { BodyCause (D.faults disk.old) (D.faults disk.new) result }
{
    let mut bytes = vec![in alloc; 0; count as usize]?;
    let filled = fill(disk, part, gate + 5, &mut bytes)?;
    if filled < bytes.len() {
        return Err(LogFault::Torn(gate));
    }
    Ok(Bytes::from_items(bytes))
}

/// The body behind the gate at an offset of a file of this length, and the offset of the next gate; none at a
/// closed gate.
pub(crate) fn record_at<D: Disk>(
    alloc: Global,
    disk: &mut D,
    part: Part,
    at: u64,
    size: u64,
) -> Result<Option<(Bytes, u64)>, LogFault>
    ensures found { IsTrue D.tells → size ≡ length (D.seen disk.old part) → at < size
        → RecordAt at (D.seen disk.old part) result }
    ensures rises { IfOk result (λ found. IfSome found
        (λ found. (at < found.1) × (found.1 < size))) }
    ensures torn { IfErr result (IsTornAt at) }
    ensures quiet { IsTrue D.tells
        → Quiet D.seen D.moment D.may_leave D.left_since disk.old disk.new }
    ensures cause { BodyCause (D.faults disk.old) (D.faults disk.new) result }
{
    if size <= at {
        return Err(LogFault::Torn(at));
    }
    match next_gate(disk, part, at, size)? {
        None => Ok(None),
        Some(next) => {
            let body = fetch(alloc, disk, part, at, next - (at + 5))?;
            Ok(Some((body, next)))
        }
    }
}

/// The same, where the body has at most `BODY_LIMIT` bytes. `Long` comes exactly where it has more, and
/// nothing of it is then read.
pub(crate) fn short_record_at<D: Disk>(
    alloc: Global,
    disk: &mut D,
    part: Part,
    at: u64,
    size: u64,
) -> Result<Option<(Bytes, u64)>, LogFault>
    ensures found { IsTrue D.tells → size ≡ length (D.seen disk.old part) → at < size
        → ShortRecordAt at (D.seen disk.old part) result }
    ensures rises { IfOk result (λ found. IfSome found
        (λ found. (at < found.1) × (found.1 < size))) }
    ensures torn { IfErr result (IsTornAt at) }
    ensures short { IfOk result (λ found. IfSome found (λ found. length found.0 ≤ BODY_LIMIT)) }
    ensures quiet { IsTrue D.tells
        → Quiet D.seen D.moment D.may_leave D.left_since disk.old disk.new }
    ensures cause { NextCause (D.faults disk.old) (D.faults disk.new) result }
{
    if size <= at {
        return Err(LogFault::Torn(at));
    }
    match next_gate(disk, part, at, size)? {
        None => Ok(None),
        Some(next) => {
            let count = next - (at + 5);
            if count > BODY_LIMIT as u64 {
                return Err(LogFault::Long);
            }
            let body = fetch(alloc, disk, part, at, count)?;
            Ok(Some((body, next)))
        }
    }
}

/// The body behind the gate at an offset of a file whose length isn't known, and the offset of the next gate.
fn read_body<D: Disk>(
    alloc: Global,
    disk: &mut D,
    part: Part,
    at: u64,
) -> Result<Option<(Bytes, u64)>, LogFault>
    ensures found { IsTrue D.tells → (before after : List (List ℕ))
        → IsLog (before ++ after) (D.seen disk.old part)
        → at ≡ length (bytes_of before) → BodyAt result after at }
    ensures rises { IfOk result (λ found. IfSome found (λ found. at < found.1)) }
    ensures torn { IfErr result (IsTornAt at) }
    ensures quiet { IsTrue D.tells
        → Quiet D.seen D.moment D.may_leave D.left_since disk.old disk.new }
    ensures cause { BodyCause (D.faults disk.old) (D.faults disk.new) result }
{
    let size = disk.size(part)?;
    record_at(alloc, disk, part, at, size)
}

impl Log {
    /// The body behind the gate at an offset, and the offset of the next gate; `None` at the closed gate.
    /// `at` is a gate's offset. `DiskFault` comes only where the disk's count of faults rose in this call,
    /// and `NoMemory` where memory ran out. `Torn` comes only on a disk that doesn't tell what a read gives,
    /// where the record or the gate behind it isn't there, and names `at`.
    pub fn body<D: Disk>(&self, disk: &mut D, at: u64) -> Result<Option<(Bytes, u64)>, LogFault>
        requires { self.now.spent ≡ false }
        ensures found { IsTrue D.tells → (before after : List (List ℕ))
            → Rests (before ++ after) (D.seen disk.old) (D.may_leave disk.old) self.now
            → at ≡ length (bytes_of before) → BodyAt result after at }
        ensures rises { IfOk result (λ found. IfSome found (λ found. at < found.1)) }
        ensures torn { IfErr result (IsTornAt at) }
        ensures quiet { IsTrue D.tells
            → Quiet D.seen D.moment D.may_leave D.left_since disk.old disk.new }
        ensures cause { BodyCause (D.faults disk.old) (D.faults disk.new) result }
    {
        read_body(self.alloc, disk, self.part, at)
    }
}
