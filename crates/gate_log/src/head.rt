//! The head of a store.

ghost use Rattle.std.specs.Prelude.{◌≡◌, ◌<◌, ◌^◌, ◌+◌, ℕ, length, get_or, IfOk, IsTrue};
ghost use Rattle.kap_io.specs.Causes.{HasCause};
ghost use Rattle.kap_io.specs.Disk.{Elsewhere, On, OnlyIn};
ghost use Rattle.kap_io.specs.Moments.{Moments, Quiet};
ghost use Rattle.gate_log.specs.Causes.{HeadCause, WriteCause};
ghost use Rattle.gate_log.specs.Head.{HasNoHead, HeadRead, IsHead, RunIs, StartsHead};
ghost use Rattle.gate_log.specs.Logs.{Refuses};
ghost use Rattle.gate_log.specs.declared.fault.LogFault.TheVariants.{Header};

use crate::append::write_synced;
use crate::fault::LogFault;
use crate::mark::OPEN;
use crate::read::fill;
use kap_io::{Disk, Failed, Part};

/// The bytes that a head begins with.
const HEAD_MAGIC: [u8; 8] = *b"KAPHEAD1";

/// The byte at an offset.
fn byte_at<D: Disk>(disk: &mut D, part: Part, at: u64) -> Result<u8, Failed>
    requires { at + 1 < 2 ^ 64 }
    ensures byte { IsTrue D.tells → at < length (D.seen disk.old part)
        → IfOk result (λ byte. byte ≡ get_or (D.seen disk.old part) at 0) }
    ensures quiet { IsTrue D.tells
        → Quiet D.seen D.moment D.may_leave D.left_since disk.old disk.new }
    ensures cause { HasCause (D.faults disk.old) (D.faults disk.new) result }
{
    let mut byte = [0; 1];
    let _count = fill(disk, part, at, &mut byte)?;
    Ok(byte[0])
}

/// The size of a head that begins as one does.
fn read_magic<D: Disk>(disk: &mut D) -> Result<u64, LogFault>
    ensures some { IfOk result (λ size. 7 < size) }
    ensures found { IsTrue D.tells → StartsHead (D.seen disk.old Part.Head) result }
    ensures quiet { IsTrue D.tells
        → Quiet D.seen D.moment D.may_leave D.left_since disk.old disk.new }
    ensures cause { HeadCause (D.faults disk.old) (D.faults disk.new) result }
{
    let size = disk.size(Part::Head)?;
    if size < 8 {
        return Err(LogFault::Header);
    }
    let mut start = [0; 8];
    if fill(disk, Part::Head, 0, &mut start)? < 8 || start != HEAD_MAGIC {
        return Err(LogFault::Header);
    }
    Ok(size)
}

/// How many open gates stand behind a head's first bytes.
fn count_gates<D: Disk>(disk: &mut D) -> Result<u64, LogFault>
    ensures found { IsTrue D.tells → HeadRead (D.seen disk.old Part.Head) result }
    ensures quiet { IsTrue D.tells
        → Quiet D.seen D.moment D.may_leave D.left_since disk.old disk.new }
    ensures cause { HeadCause (D.faults disk.old) (D.faults disk.new) result }
{
    let size = read_magic(disk)?;
    let gates = size - 8;
    let mut run = 0;
    'gates: while run < gates && byte_at(disk, Part::Head, 8 + run)? == OPEN {
        run += 1;
    }
    Ok(run)
}

/// How many open gates the head begins with; a missing byte is a closed gate. It changes nothing. `Header`
/// comes exactly where the head's first eight bytes aren't those of a head. `DiskFault` comes before that,
/// only where the disk's count of faults rose in this call. No other fault comes.
pub fn read_head<D: Disk>(disk: &mut D) -> Result<u64, LogFault>
    ensures found { IsTrue D.tells → HeadRead (D.seen disk.old Part.Head) result }
    ensures run { IsTrue D.tells → (run : ℕ)
        → IsHead run (D.seen disk.old Part.Head) → RunIs run result }
    ensures header { IsTrue D.tells
        → HasNoHead (D.seen disk.old Part.Head) → Refuses Header result }
    ensures quiet { IsTrue D.tells
        → Quiet D.seen D.moment D.may_leave D.left_since disk.old disk.new }
    ensures cause { HeadCause (D.faults disk.old) (D.faults disk.new) result }
{
    count_gates(disk)
}

/// Makes the head that of a new store, with no open gate, whatever it held; from `Ok` on each image has it.
/// `DiskFault` comes only where the disk's count of faults rose in this call, and the head may then be
/// anything; the other files stay. No other fault comes.
pub fn make_head<D: Disk>(disk: &mut D) -> Result<(), LogFault>
    ensures made { IsTrue D.tells → IfOk result (λ _. IsHead 0 (D.seen disk.new Part.Head)) }
    ensures durable { IsTrue D.tells
        → IfOk result (λ _. OnlyIn Part.Head (D.seen disk.new Part.Head) (D.may_leave disk.new)) }
    ensures any_moment { IsTrue D.tells → Moments D.moment D.may_leave D.left_since
        disk.old disk.new (On Part.Head (λ _ _. Unit {0})) }
    ensures elsewhere { IsTrue D.tells → Elsewhere Part.Head (D.seen disk.old) (D.seen disk.new) }
    ensures cause { WriteCause (D.faults disk.old) (D.faults disk.new) result }
{
    disk.cut(Part::Head, 0)?;
    write_synced(disk, Part::Head, 0, &HEAD_MAGIC)?;
    Ok(())
}
