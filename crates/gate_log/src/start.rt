ghost use Rattle.std.specs.Prelude.{◌≡◌, [], false, IfOk, IsTrue};
ghost use Rattle.kap_io.specs.Disk.{Elsewhere, On};
ghost use Rattle.kap_io.specs.Moments.{Moments};
ghost use Rattle.gate_log.specs.Causes.{WriteCause};
ghost use Rattle.gate_log.specs.Logs.{Rests};

use crate::append::write_synced;
use crate::fault::LogFault;
use crate::log::Log;
use kap_io::{Disk, Part};
use std::alloc::Global;

/// An empty log: the bytes that a log begins with, and a closed gate.
const EMPTY: [u8; 9] = *b"KAPLOG01\0";

/// Makes the file an empty log, whatever it held; from `Ok` on each image has it. `DiskFault` comes only
/// where the disk's count of faults rose in this call, and the file may then be anything; the other files
/// stay. No other fault comes.
pub fn make<D: Disk>(alloc: Global, disk: &mut D, part: Part) -> Result<Log, LogFault>
    ensures made { IsTrue D.tells
        → IfOk result (Rests [] (D.seen disk.new) (D.may_leave disk.new)) }
    ensures log { IfOk result (λ log. (log.part ≡ part) × (log.spent ≡ false)) }
    ensures any_moment { IsTrue D.tells → Moments D.moment D.may_leave D.left_since
        disk.old disk.new (On part (λ _ _. Unit {0})) }
    ensures elsewhere { IsTrue D.tells → Elsewhere part (D.seen disk.old) (D.seen disk.new) }
    ensures cause { WriteCause (D.faults disk.old) (D.faults disk.new) result }
{
    disk.cut(part, 0)?;
    write_synced(disk, part, 0, &EMPTY)?;
    Ok(Log::at(alloc, part, 8))
}
