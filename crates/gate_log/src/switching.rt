//! Opening one more gate of the head.

ghost use Rattle.std.specs.Prelude.{◌≤◌, ◌+◌, ◌<◌, ◌^◌, OnOk, IsTrue};
ghost use Rattle.kap_base.specs.Words.{HasRisen};
ghost use Rattle.kap_io.specs.Disk.{Elsewhere, On, OnlyIn};
ghost use Rattle.kap_io.specs.Moments.{Moments};
ghost use Rattle.gate_log.specs.Causes.{SwitchFault, WriteCause};
ghost use Rattle.gate_log.specs.Head.{IsGated, IsRunOrNext, IsSettledHead};

use crate::append::write_synced;
use crate::fault::LogFault;
use crate::mark::{CLOSED, OPEN};
use kap_io::{Disk, Part};

/// Writes the closed gate behind the run, where that byte is missing.
fn close_gate<D: Disk>(disk: &mut D, run: u64) -> Result<(), LogFault>
    requires { 8 + run + 1 < 2 ^ 64 }
    ensures closed { IsTrue D.tells → IsSettledHead run (D.seen disk.old) (D.may_leave disk.old)
        → OnOk result (IsGated run (D.seen disk.new Part.Head)) }
    ensures durable { IsTrue D.tells → IsSettledHead run (D.seen disk.old) (D.may_leave disk.old)
        → OnOk result (OnlyIn Part.Head (D.seen disk.new Part.Head) (D.may_leave disk.new)) }
    ensures any_moment { IsTrue D.tells → IsSettledHead run (D.seen disk.old) (D.may_leave disk.old)
        → Moments D.moment D.may_leave D.left_since disk.old disk.new
        (On Part.Head (λ _ file. IsRunOrNext run file)) }
    ensures elsewhere { IsTrue D.tells → Elsewhere Part.Head (D.seen disk.old) (D.seen disk.new) }
    ensures later { D.faults disk.old ≤ D.faults disk.new }
    ensures cause { WriteCause (D.faults disk.old) (D.faults disk.new) result }
{
    let gate = 8 + run;
    let size = disk.size(Part::Head)?;
    if gate < size {
        return Ok(());
    }
    write_synced(disk, Part::Head, gate, &[CLOSED])?;
    Ok(())
}

/// Opens one more gate of the head, so that it names the other log. The head has `run` open gates by
/// `read_head`, and nothing is pending on it, so that in each image of now it is what a read gives. In each
/// image during the call it has `run` open gates or one more, and one more in each from `Ok` on. `DiskFault`
/// comes only where the disk's count of faults rose in this call. A head of nearly 2^64 bytes is want of
/// memory, and nothing is then changed.
pub fn switch<D: Disk>(disk: &mut D, run: u64) -> Result<(), LogFault>
    ensures switched { IsTrue D.tells → IsSettledHead run (D.seen disk.old) (D.may_leave disk.old)
        → OnOk result (IsSettledHead (run + 1) (D.seen disk.new) (D.may_leave disk.new)) }
    ensures any_moment { IsTrue D.tells → IsSettledHead run (D.seen disk.old) (D.may_leave disk.old)
        → Moments D.moment D.may_leave D.left_since disk.old disk.new
        (On Part.Head (λ _ file. IsRunOrNext run file)) }
    ensures elsewhere { IsTrue D.tells → Elsewhere Part.Head (D.seen disk.old) (D.seen disk.new) }
    ensures later { D.faults disk.old ≤ D.faults disk.new }
    ensures cause { SwitchFault result disk.old disk.new
        (HasRisen (D.faults disk.old) (D.faults disk.new)) }
{
    if run >= u64::MAX - 10 {
        return Err(LogFault::NoMemory);
    }
    let gate = 8 + run;
    close_gate(disk, run)?;
    write_synced(disk, Part::Head, gate + 1, &[CLOSED])?;
    write_synced(disk, Part::Head, gate, &[OPEN])?;
    Ok(())
}
