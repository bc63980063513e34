ghost use Rattle.std.specs.Prelude.{◌≡◌, ◌<◌, false, List, ℕ, length, take, IfOk, IsTrue};
ghost use Rattle.kap_io.specs.Moments.{Quiet};
ghost use Rattle.gate_log.specs.Bodies.{IsHeaderless, IsLog, IsTorn, magic};
ghost use Rattle.gate_log.specs.Causes.{LogCause};
ghost use Rattle.gate_log.specs.Logs.{Finds, Opens, Refuses};
ghost use Rattle.gate_log.specs.Reading.{EndsAt, StartsAs};
ghost use Rattle.gate_log.specs.declared.fault.LogFault.TheVariants.{Header, Torn};

use crate::fault::LogFault;
use crate::log::Log;
use crate::read::{fill, next_gate};
use kap_io::{Disk, Part};
use std::alloc::Global;

/// The bytes that a log begins with.
const MAGIC: [u8; 8] = *b"KAPLOG01";

/// The offset of the closed gate of a log, whose first gate stands behind the bytes that a log begins with.
fn find_end<D: Disk>(disk: &mut D, part: Part, size: u64) -> Result<u64, LogFault>
    requires { 8 < size }
    ensures found { IsTrue D.tells → size ≡ length (D.seen disk.old part)
        → take 8 (D.seen disk.old part) ≡ magic → EndsAt (D.seen disk.old part) result }
    ensures quiet { IsTrue D.tells
        → Quiet D.seen D.moment D.may_leave D.left_since disk.old disk.new }
    ensures cause { LogCause (D.faults disk.old) (D.faults disk.new) result }
{
    let mut gate = 8;
    'gates: while let Some(next) = next_gate(disk, part, gate, size)? {
        gate = next;
    }
    Ok(gate)
}

/// The size of a file that begins as a log does.
pub(crate) fn read_start<D: Disk>(disk: &mut D, part: Part) -> Result<u64, LogFault>
    ensures some { IfOk result (λ size. 8 < size) }
    ensures found { IsTrue D.tells → StartsAs (D.seen disk.old part) result }
    ensures quiet { IsTrue D.tells
        → Quiet D.seen D.moment D.may_leave D.left_since disk.old disk.new }
    ensures cause { LogCause (D.faults disk.old) (D.faults disk.new) result }
{
    let size = disk.size(part)?;
    if size < 9 {
        return Err(LogFault::Header);
    }
    let mut start = [0; 8];
    if fill(disk, part, 0, &mut start)? < 8 || start != MAGIC {
        return Err(LogFault::Header);
    }
    Ok(size)
}

/// Syncs the file, so that nothing is pending, and reads it as a log.
fn find_log<D: Disk>(alloc: Global, disk: &mut D, part: Part) -> Result<Log, LogFault>
    ensures found { IsTrue D.tells → Finds (D.seen disk.old) (D.may_leave disk.new) part result }
    ensures log { IfOk result (λ log. (log.part ≡ part) × (log.spent ≡ false)) }
    ensures quiet { IsTrue D.tells
        → Quiet D.seen D.moment D.may_leave D.left_since disk.old disk.new }
    ensures cause { LogCause (D.faults disk.old) (D.faults disk.new) result }
{
    disk.sync(part)?;
    let size = read_start(disk, part)?;
    let end = find_end(disk, part, size)?;
    Ok(Log::at(alloc, part, end))
}

/// The log of the bodies behind open gates in a file, up to the first closed gate, whatever stands behind
/// that. It begins with a sync, and changes nothing. `Header` comes exactly where the file's first eight
/// bytes aren't those of a log or it has no ninth byte. `Torn` comes exactly where a record behind an open
/// gate, or the gate behind it, runs past the end, and tells the offset of that record's gate. `DiskFault`
/// comes before these, only where the disk's count of faults rose in this call.
pub fn open_log<D: Disk>(alloc: Global, disk: &mut D, part: Part) -> Result<Log, LogFault>
    ensures found { IsTrue D.tells → Finds (D.seen disk.old) (D.may_leave disk.new) part result }
    ensures opened { IsTrue D.tells → (bodies : List (List ℕ))
        → IsLog bodies (D.seen disk.old part)
        → Opens bodies (D.seen disk.old) (D.may_leave disk.new) result }
    ensures header { IsTrue D.tells
        → IsHeaderless (D.seen disk.old part) → Refuses Header result }
    ensures torn { IsTrue D.tells → (offset : ℕ)
        → IsTorn offset (D.seen disk.old part) → Refuses (Torn offset) result }
    ensures log { IfOk result (λ log. (log.part ≡ part) × (log.spent ≡ false)) }
    ensures quiet { IsTrue D.tells
        → Quiet D.seen D.moment D.may_leave D.left_since disk.old disk.new }
    ensures cause { LogCause (D.faults disk.old) (D.faults disk.new) result }
{
    find_log(alloc, disk, part)
}
