//! Reading from a file, and what stands at a gate.

ghost use Rattle.std.specs.Prelude.{◌≡◌, ◌<◌, ◌≤◌, ◌+◌, ◌^◌, length, IfErr, IfOk, IfSome, IsTrue};
ghost use Rattle.kap_io.specs.Causes.{HasCause};
ghost use Rattle.kap_io.specs.Moments.{Quiet};
ghost use Rattle.gate_log.specs.Causes.{BodyCause, IsTornAt};
ghost use Rattle.gate_log.specs.Reading.{Fills, ReadsOn, StandsAt};

use crate::fault::LogFault;
use crate::mark::{Mark, mark_of};
use kap_io::{Disk, Failed, Part};

/// Reads on behind the bytes that are placed, by one call.
fn read_on<D: Disk>(
    disk: &mut D,
    part: Part,
    at: u64,
    buf: &mut [u8],
    count: usize,
) -> Result<usize, Failed>
    requires room { count < length buf.old }
    requires offset { at + length buf.old < 2 ^ 64 }
    ensures bound { IfOk result (λ more. count + more ≤ length buf.new) }
    ensures bytes { IsTrue D.tells
        → IfOk result (ReadsOn at (D.seen disk.old part) count buf.old buf.new) }
    ensures quiet { IsTrue D.tells
        → Quiet D.seen D.moment D.may_leave D.left_since disk.old disk.new }
    ensures cause { HasCause (D.faults disk.old) (D.faults disk.new) result }
{
    let more = disk.read(part, at + count as u64, &mut buf[count..])?;
    Ok(more)
}

/// Places the bytes from an offset on, as many as there are or as have room.
pub(crate) fn fill<D: Disk>(
    disk: &mut D,
    part: Part,
    at: u64,
    buf: &mut [u8],
) -> Result<usize, Failed>
    requires { at + length buf.old < 2 ^ 64 }
    ensures bound { IfOk result (λ count. count ≤ length buf.new) }
    ensures bytes { IsTrue D.tells → IfOk result (Fills at (D.seen disk.old part) buf.new) }
    ensures quiet { IsTrue D.tells
        → Quiet D.seen D.moment D.may_leave D.left_since disk.old disk.new }
    ensures cause { HasCause (D.faults disk.old) (D.faults disk.new) result }
{
    let mut count = 0;
    'filling: while count < buf.len() {
        let more = read_on(disk, part, at, buf, count)?;
        if more == 0 {
            break;
        }
        count += more;
    }
    Ok(count)
}

/// The offset of the next gate behind a record, or none where the gate is closed.
pub(crate) fn next_gate<D: Disk>(
    disk: &mut D,
    part: Part,
    gate: u64,
    size: u64,
) -> Result<Option<u64>, LogFault>
    requires { gate < size }
    ensures rises { IfOk result (λ next. IfSome next
        (λ next. (gate + 5 ≤ next) × (next < size))) }
    ensures torn { IfErr result (IsTornAt gate) }
    ensures found { IsTrue D.tells → size ≡ length (D.seen disk.old part)
        → StandsAt gate (D.seen disk.old part) result }
    ensures quiet { IsTrue D.tells
        → Quiet D.seen D.moment D.may_leave D.left_since disk.old disk.new }
    ensures cause { BodyCause (D.faults disk.old) (D.faults disk.new) result }
{
    let mut buf = [0; 5];
    let count = (size - gate).min(5) as usize;
    let head = &mut buf[..count];
    if fill(disk, part, gate, head)? < count {
        return Err(LogFault::Torn(gate));
    }
    match mark_of(head, gate, size) {
        Mark::Closed => Ok(None),
        Mark::Open(next) => Ok(Some(next)),
        Mark::Torn => Err(LogFault::Torn(gate)),
    }
}
