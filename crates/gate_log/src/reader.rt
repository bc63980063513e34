//! Reading a log from its first record on, each record once.

ghost use Rattle.std.specs.Prelude.{◌≡◌, ◌≤◌, List, ℕ, length, IfErr, IfOk, IfSome, IsTrue};
ghost use Rattle.kap_io.specs.Moments.{Quiet};
ghost use Rattle.gate_log.specs.Bodies.{IsHeaderless};
ghost use Rattle.gate_log.specs.Causes.{IsTornAt, LogCause, NextCause};
ghost use Rattle.gate_log.specs.Logs.{Refuses};
ghost use Rattle.gate_log.specs.Readers.{Begins, GoesOn, HasRead, ReadsNext, log_at};
ghost use Rattle.gate_log.specs.declared.fault.LogFault.TheVariants.{Header};

use crate::body::short_record_at;
use crate::fault::LogFault;
use crate::log::{BODY_LIMIT, Log};
use crate::open::read_start;
use kap_base::Bytes;
use kap_io::{Disk, Part};
use std::alloc::Global;
use std::marker::Model;

/// A log that is read from its first record on, and is a log to which bodies can be added once all are read.
/// Other than `open_log`, it gives the bodies that stand in front of a record that runs past the end of the
/// file. What its calls promise stands on the disk on which it was made, where since then nothing changed
/// what a read of its file gives.
#[derive(Debug, Drop)]
pub struct LogReader {
    alloc: Global,
    part: Part,
    size: u64,
    gate: u64,
}

impl Model for LogReader {
    ghost use Rattle.gate_log.specs.Readers.{ReaderState};

    ghost Value = { ReaderState };

    ghost view = { λ r. record { part = r.part; size = r.size; gate = r.gate } };
}

/// Syncs the file, so that nothing is pending.
fn begin<D: Disk>(alloc: Global, disk: &mut D, part: Part) -> Result<LogReader, LogFault>
    ensures found { IsTrue D.tells → Begins (D.seen disk.old) (D.may_leave disk.new) part result }
    ensures reader { IfOk result (λ reader. reader.part ≡ part) }
    ensures quiet { IsTrue D.tells
        → Quiet D.seen D.moment D.may_leave D.left_since disk.old disk.new }
    ensures cause { LogCause (D.faults disk.old) (D.faults disk.new) result }
{
    disk.sync(part)?;
    let size = read_start(disk, part)?;
    Ok(LogReader {
        alloc,
        part,
        size,
        gate: 8,
    })
}

/// Begins to read a file as a log. It begins with a sync, and changes nothing. `Header` comes exactly where
/// the file's first eight bytes aren't those of a log or it has no ninth byte. `DiskFault` comes before that,
/// only where the disk's count of faults rose in this call; `Torn` and `Long` never come.
pub fn read_log<D: Disk>(alloc: Global, disk: &mut D, part: Part) -> Result<LogReader, LogFault>
    ensures found { IsTrue D.tells → Begins (D.seen disk.old) (D.may_leave disk.new) part result }
    ensures header { IsTrue D.tells
        → IsHeaderless (D.seen disk.old part) → Refuses Header result }
    ensures reader { IfOk result (λ reader. reader.part ≡ part) }
    ensures quiet { IsTrue D.tells
        → Quiet D.seen D.moment D.may_leave D.left_since disk.old disk.new }
    ensures cause { LogCause (D.faults disk.old) (D.faults disk.new) result }
{
    begin(alloc, disk, part)
}

impl LogReader {
    /// Its file.
    pub fn part(&self) -> Part
        ensures { result ≡ self.now.part }
    {
        self.part
    }

    /// The offset of the gate that comes next.
    pub fn gate(&self) -> u64
        ensures { result ≡ self.now.gate }
    {
        self.gate
    }

    /// The next body, with the offset of its gate; `None` at the closed gate, again and again. `Torn` comes
    /// exactly where the record behind the open gate that comes next, or the gate behind it, runs past the
    /// end, and tells the offset of that record's gate. `Long` comes exactly where its body has more than
    /// `BODY_LIMIT` bytes, before anything of the body is read. `DiskFault` comes only where the disk's count
    /// of faults rose in this call, and `NoMemory` where memory ran out; after each of these the same body
    /// comes next.
    pub fn next<D: Disk>(&mut self, disk: &mut D) -> Result<Option<(u64, Bytes)>, LogFault>
        ensures next { IsTrue D.tells → (bodies : List (List ℕ))
            → HasRead bodies (D.seen disk.old) (D.may_leave disk.old) self.old
            → ReadsNext bodies (D.seen disk.new) (D.may_leave disk.new) self.old self.new result }
        ensures goes_on { GoesOn self.old self.new result }
        ensures short { IfOk result (λ found. IfSome found (λ found. length found.1 ≤ BODY_LIMIT)) }
        ensures torn { IfErr result (IsTornAt self.old.gate) }
        ensures quiet { IsTrue D.tells
            → Quiet D.seen D.moment D.may_leave D.left_since disk.old disk.new }
        ensures cause { NextCause (D.faults disk.old) (D.faults disk.new) result }
    {
        let gate = self.gate;
        match short_record_at(self.alloc, disk, self.part, gate, self.size)? {
            None => Ok(None),
            Some((body, next)) => {
                self.gate = next;
                Ok(Some((gate, body)))
            }
        }
    }

    /// The log whose closed gate comes next: where `next` gave `None`, all bodies are read.
    pub fn into_log(self) -> Log
        ensures { result ≡ log_at self }
    {
        Log::at(self.alloc, self.part, self.gate)
    }
}
