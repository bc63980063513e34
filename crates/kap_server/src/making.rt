//! The command `init`.

ghost use Rattle.std.specs.Prelude.{◌≡◌, IsTrue};
ghost use Rattle.kap_base.specs.Words.{HasRisen};
ghost use Rattle.kap_io.specs.Causes.{HasCause};
ghost use Rattle.kap_io.specs.Moments.{Quiet};
ghost use Rattle.kap_server.specs.Making.{HasHead, HeadOrNot, Made};

use crate::status::Status;
use gate_log::{LogFault, read_head};
use kap_io::{Disk, Failed, Part};
use std::alloc::Global;
use topic_store::make_store;

/// Whether a head stands on the disk.
fn has_head<D: Disk>(disk: &mut D) -> Result<bool, Failed>
    ensures found { IsTrue D.tells → HeadOrNot (D.seen disk.old Part.Head) result }
    ensures quiet { IsTrue D.tells
        → Quiet D.seen D.moment D.may_leave D.left_since disk.old disk.new }
    ensures cause { HasCause (D.faults disk.old) (D.faults disk.new) result }
{
    match read_head(disk) {
        Ok(_) => Ok(true),
        Err(LogFault::Header) => Ok(false),
        // No fault of a head is another one than the disk's.
        Err(LogFault::DiskFault | LogFault::Torn(_) | LogFault::Long | LogFault::NoMemory) => Err(
            Failed,
        ),
    }
}

/// Makes a store, where no head stands on the disk. It changes nothing where one does.
pub(crate) fn init<D: Disk>(alloc: Global, disk: &mut D) -> Status
    ensures made { Made (IsTrue D.tells) result (D.seen disk.old)
        (D.seen disk.new) (D.may_leave disk.new) }
    ensures kept { IsTrue D.tells → HasHead (D.seen disk.old Part.Head)
        → Quiet D.seen D.moment D.may_leave D.left_since disk.old disk.new }
    ensures disk_fault { result ≡ Status.DiskFault
        → HasRisen (D.faults disk.old) (D.faults disk.new) }
{
    match has_head(disk) {
        Ok(true) => Status::Exists,
        Ok(false) => match make_store(alloc, disk) {
            Ok(()) => Status::Ok,
            Err(fault) => Status::from(fault),
        },
        Err(Failed) => Status::DiskFault,
    }
}
