//! The lists of tasks, of transitions and of points.

ghost use Rattle.std.specs.Prelude.{◌≡◌, false, IsTrue, List};
ghost use Rattle.kap_io.specs.Moments.{Quiet};
ghost use Rattle.store_records.specs.Histories.{held};
ghost use Rattle.store_records.specs.declared.rec.Rec.{Rec};
ghost use Rattle.topic_store.specs.Stores.{IsOn};
ghost use Rattle.store_lists.specs.Lists.{points_text, tasks_text, transitions_text};
ghost use Rattle.store_lists.specs.Writing.{ListCause, Lists, WriteCause};

use crate::fault::ListFault;
use crate::writing::{put_all, write_rest};
use kap_base::Bytes;
use kap_io::{Disk, Sink};
use std::alloc::Global;
use store_records::StoredTask;
use topic_store::Store;

/// Writes the lines of tasks: of each its id, and whether it is enabled. After an `Err` a prefix of them is
/// written. `WriteFault` comes only where the output counted a fault in this call, and `NoMemory` where
/// memory ran out; no other fault comes.
pub fn write_tasks<K: Sink>(
    alloc: Global,
    tasks: &[StoredTask],
    out: &mut K,
) -> Result<(), ListFault>
    ensures lists { Lists result (tasks_text tasks.now) (K.written out.old) (K.written out.new) }
    ensures cause { WriteCause (K.faults out.old) (K.faults out.new) result }
{
    let mut text = Bytes::new(alloc);
    if let Err(fault) = put_all(alloc, tasks, &mut text, out) {
        return Err(fault);
    }
    write_rest(out, &text)
}

/// Writes the lines of the transitions of a store, in their order. After an `Err` a prefix of them is
/// written. `WriteFault` and `DiskFault` come only where the output, or the disk, counted a fault in this
/// call, and `NoMemory` where memory ran out. `NotStore` comes only on a disk that doesn't tell what a read
/// gives, at a record that is none.
pub fn write_transitions<K: Sink, D: Disk>(
    alloc: Global,
    store: &Store,
    out: &mut K,
    disk: &mut D,
) -> Result<(), ListFault>
    requires usable { store.now.log.spent ≡ false }
    ensures lists { IsTrue D.tells → (rs : List Rec)
        → IsOn rs (D.seen disk.old) (D.may_leave disk.old) store.now
        → Lists result (transitions_text (held rs).transitions)
        (K.written out.old) (K.written out.new) }
    ensures quiet { IsTrue D.tells
        → Quiet D.seen D.moment D.may_leave D.left_since disk.old disk.new }
    ensures cause { ListCause (K.faults out.old) (K.faults out.new)
        (D.faults disk.old) (D.faults disk.new) result }
{
    let mut text = Bytes::new(alloc);
    let mut after = 0_u64;
    'writing: for _ in 0..u64::MAX {
        let piece = match store.transitions(disk, after) {
            Ok(piece) => piece,
            Err(fault) => return Err(ListFault::from(fault)),
        };
        if piece.is_empty() {
            return write_rest(out, &text);
        }
        if let Err(fault) = put_all(alloc, piece.as_slice(), &mut text, out) {
            return Err(fault);
        }
        let Some(next) = after.checked_add(piece.len() as u64) else {
            return Err(ListFault::NoMemory);
        };
        after = next;
    }
    // No store has transitions for so many pieces.
    Err(ListFault::NoMemory)
}

/// Writes the recording of the points of a store, in their order. All else is as `write_transitions` says.
pub fn write_points<K: Sink, D: Disk>(
    alloc: Global,
    store: &Store,
    out: &mut K,
    disk: &mut D,
) -> Result<(), ListFault>
    requires usable { store.now.log.spent ≡ false }
    ensures lists { IsTrue D.tells → (rs : List Rec)
        → IsOn rs (D.seen disk.old) (D.may_leave disk.old) store.now
        → Lists result (points_text (held rs).points)
        (K.written out.old) (K.written out.new) }
    ensures quiet { IsTrue D.tells
        → Quiet D.seen D.moment D.may_leave D.left_since disk.old disk.new }
    ensures cause { ListCause (K.faults out.old) (K.faults out.new)
        (D.faults disk.old) (D.faults disk.new) result }
{
    let mut text = Bytes::new(alloc);
    let mut reader = store.read_points(0);
    'writing: for _ in 0..u64::MAX {
        let (piece, behind) = match reader.next(store, disk) {
            Ok(given) => given,
            Err(fault) => return Err(ListFault::from(fault)),
        };
        if piece.is_empty() {
            return write_rest(out, &text);
        }
        if let Err(fault) = put_all(alloc, &piece, &mut text, out) {
            return Err(fault);
        }
        reader = behind;
    }
    // No store has points for so many pieces.
    Err(ListFault::NoMemory)
}
