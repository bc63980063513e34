//! Making a store.

ghost use Rattle.std.specs.Prelude.{IfOk, IsTrue, OnOk};
ghost use Rattle.kap_io.specs.Moments.{Moments};
ghost use Rattle.topic_store.specs.Making.{AreEmptyLogs, HeadComesLast, IsMade, MakeCause, SameHead};

use crate::fault::{StoreFault, fault_in};
use gate_log::{make, make_head};
use kap_io::{Disk, Part};
use std::alloc::Global;

/// Makes both logs empty ones. The head stays.
fn make_logs<D: Disk>(alloc: Global, disk: &mut D) -> Result<(), StoreFault>
    ensures logs { IsTrue D.tells
        → OnOk result (AreEmptyLogs (D.seen disk.new) (D.may_leave disk.new)) }
    ensures any_moment { IsTrue D.tells → Moments D.moment D.may_leave D.left_since
        disk.old disk.new SameHead }
    ensures cause { MakeCause (D.faults disk.old) (D.faults disk.new) result }
{
    let _left = match make(alloc, disk, Part::Left) {
        Ok(log) => log,
        Err(fault) => return Err(fault_in(Part::Left, fault)),
    };
    match make(alloc, disk, Part::Right) {
        Ok(_) => Ok(()),
        Err(fault) => Err(fault_in(Part::Right, fault)),
    }
}

/// Makes an empty store, whatever the disk held: both logs, and then the head. From `Ok` on each image stands
/// for it. `DiskFault` comes only where the disk's count of faults rose in this call, and the files may then
/// be anything. But where no head stood, each image with a head stands for the store of no records, at each
/// moment. No other fault comes.
pub fn make_store<D: Disk>(alloc: Global, disk: &mut D) -> Result<(), StoreFault>
    ensures made { IsTrue D.tells
        → IfOk result (λ _. IsMade (D.seen disk.new) (D.may_leave disk.new)) }
    ensures any_moment { IsTrue D.tells → Moments D.moment D.may_leave D.left_since
        disk.old disk.new HeadComesLast }
    ensures cause { MakeCause (D.faults disk.old) (D.faults disk.new) result }
{
    make_logs(alloc, disk)?;
    match make_head(disk) {
        Ok(()) => Ok(()),
        Err(fault) => Err(fault_in(Part::Head, fault)),
    }
}
