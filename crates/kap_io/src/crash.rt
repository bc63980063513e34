//! What a crash leaves of a file, by the record of calls.

ghost use Rattle.std.specs.Prelude.{◌≡◌, ◌≤◌, length, map, take, IfOk, OnOk};
ghost use Rattle.kap_io.specs.FileBytes.{same_part};
ghost use Rattle.kap_io.specs.MemDisks.{changed, content, is_sync, newest_first, picked, refilled, synced, was_on, works};

use crate::disk::Part;
use crate::disk_files::{fill, overwrite, resize};
use crate::disk_work::{DiskCall, DiskWork};
use crate::pick::Pick;
use std::alloc::{AllocError, Global};

/// Whether both name the same file.
fn is_same(one: Part, other: Part) -> bool
    ensures { result ≡ same_part one other }
{
    one == other
}

/// Whether the call was done on this file.
fn was_on(part: Part, call: &DiskCall) -> bool
    ensures { result ≡ was_on part call.now }
{
    call.done && is_same(part, call.part)
}

/// Whether it is a sync.
fn is_sync(work: &DiskWork) -> bool
    ensures { result ≡ is_sync work.now }
{
    matches!(work, DiskWork::Sync)
}

/// How many calls there are up to the last sync of this file.
fn last_sync(calls: &[DiskCall], part: Part) -> usize
    ensures within { result ≤ length calls.now }
    ensures synced { synced (works part (newest_first calls.now))
        ≡ works part (newest_first (take result calls.now)) }
{
    let mut last = 0;
    'calls: for (before, call) in calls.iter().enumerate() {
        if was_on(part, call) && is_sync(&call.work) {
            last = before + 1;
        }
    }
    last
}

/// Does this to a file once more, with this byte in place of each that it writes, if there is one.
fn redo(file: &mut Vec<u8>, work: &DiskWork, byte: Option<u8>) -> Result<(), AllocError>
    ensures { OnOk result (file.new.items ≡ changed (refilled byte work.now) file.old.items) }
{
    match work {
        DiskWork::Size | DiskWork::Read { .. } | DiskWork::Sync => Ok(()),
        DiskWork::Cut { size } => resize(file, *size),
        DiskWork::Write { at, piece } => match byte {
            None => overwrite(file, *at, piece.as_slice()),
            Some(byte) => fill(file, *at, piece.len(), byte),
        },
    }
}

/// Does to a file what these calls did, with this byte in place of each that they wrote, if there is one.
fn redo_all(
    file: &mut Vec<u8>,
    calls: &[DiskCall],
    part: Part,
    byte: Option<u8>,
) -> Result<(), AllocError>
    ensures { OnOk result (file.new.items
        ≡ content file.old.items (map (refilled byte) (works part (newest_first calls.now)))) }
{
    'calls: for call in calls {
        if was_on(part, call) {
            redo(file, &call.work, byte)?;
        }
    }
    Ok(())
}

/// What a file holds that held `start` before these calls.
fn redone(
    alloc: Global,
    start: &[u8],
    calls: &[DiskCall],
    part: Part,
) -> Result<Vec<u8>, AllocError>
    ensures { IfOk result (λ file. file.items
        ≡ content start.now (works part (newest_first calls.now))) }
{
    let mut file = start.to_vec(alloc)?;
    redo_all(&mut file, calls, part, None)?;
    Ok(file)
}

/// What a crash leaves of a file that held `start` before these calls and holds `now` behind them.
pub(crate) fn picked_file(
    alloc: Global,
    start: &[u8],
    now: &[u8],
    calls: &[DiskCall],
    part: Part,
    pick: Pick,
) -> Result<Vec<u8>, AllocError>
    requires { now.now ≡ content start.now (works part (newest_first calls.now)) }
    ensures { IfOk result (λ file. file.items
        ≡ picked pick start.now (works part (newest_first calls.now))) }
{
    let (before, since) = calls.split_at(last_sync(calls, part));
    match pick {
        Pick::New => now.to_vec(alloc),
        Pick::Old => redone(alloc, start, before, part),
        Pick::Fill(byte) => {
            let mut file = redone(alloc, start, before, part)?;
            redo_all(&mut file, since, part, Some(byte))?;
            Ok(file)
        }
    }
}
