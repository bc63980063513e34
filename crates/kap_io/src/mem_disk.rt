ghost use Rattle.std.specs.Prelude.{◌≡◌, ◌⊎◌, ◌≤◌, ◌<◌, [], Some, None, true, length, min, ◌-◌, IsTrue, IsErr, IfOk, OnErr, OnOk, is_err};
ghost use Rattle.kap_io.specs.CallRecords.{Counts, MayFail, Notes, is_next_failing};
ghost use Rattle.kap_io.specs.Causes.{HasCause};
ghost use Rattle.kap_io.specs.Disk.{Elsewhere, Follows, Narrows, OnlyIn, Places, Stretched, Torn, overwritten, resized};
ghost use Rattle.kap_io.specs.FileBytes.{file_of};
ghost use Rattle.kap_io.specs.MemDisks.{IsSettled, Passes, holds, leaves, left_from, moment_of, picked, works, newest_first};
ghost use Rattle.kap_io.specs.MemDiskLaws.{memory_counts_now, memory_only_now, memory_reads_as};
ghost use Rattle.kap_io.specs.declared.disk.Part.{Part};
ghost use Rattle.kap_io.specs.declared.disk_work.DiskWork.TheVariants as work;

use crate::crash::picked_file;
use crate::disk::{Disk, Part};
use crate::disk_calls::DiskCalls;
use crate::disk_files::{DiskFiles, place};
use crate::disk_work::{DiskCall, DiskWork};
use crate::failed::Failed;
use crate::pick::Pick;
use kap_base::{Bytes, NoMemory};
use std::alloc::Global;
use std::marker::Model;

/// A disk in memory, which keeps a record of its calls, and fails at those that a list names. A call that
/// fails does nothing. Where it finds no memory for a growth of its own, it counts a fault and answers
/// `Failed`.
#[derive(Drop)]
pub struct MemDisk {
    alloc: Global,
    start: DiskFiles,
    files: DiskFiles,
    calls: DiskCalls,
}

impl Model for MemDisk {
    ghost use Rattle.std.specs.Prelude.{◌≡◌};
    ghost use Rattle.kap_io.specs.FileBytes.{file_of};
    ghost use Rattle.kap_io.specs.MemDisks.{MemDiskState, contents, newest_first};
    ghost use Rattle.kap_io.specs.declared.disk.Part.{Part};

    ghost Value = { MemDiskState };

    ghost view = { λ d. record { start = d.start; calls = d.calls } };

    ghost invariant = { λ d. (part : Part)
        → file_of d.files part ≡ contents d.start (newest_first d.calls.noted) part };
}

impl MemDisk {
    /// Three empty files, with nothing pending. The calls with these numbers fail, the first call being
    /// number 1.
    pub fn new(alloc: Global, fails: Vec<u64>) -> Self
        ensures fails { (result.calls.fails ≡ fails.items) × (result.calls.stop ≡ None) }
        ensures no_calls { (result.calls.noted ≡ []) × (result.calls.count ≡ 0) }
        ensures no_faults { result.calls.faults ≡ 0 }
        ensures empty { (part : Part) → holds result part ≡ [] }
        ensures nothing_pending { (part : Part) → OnlyIn part [] (leaves result) }
    {
        MemDisk {
            alloc,
            start: DiskFiles::empty(alloc),
            files: DiskFiles::empty(alloc),
            calls: DiskCalls::new(alloc, fails),
        }
    }

    /// The record of its calls, in their order; only calls that failed for want of memory may be left out.
    pub fn calls(&self) -> &[DiskCall]
        ensures { result.now ≡ self.now.calls.noted }
    {
        self.calls.noted()
    }

    /// From now on the call with this number and each later one fail, the first call of all being number 1.
    pub fn stop_at(&mut self, call: u64)
        ensures { self.new
            ≡ record self.old { calls = record self.old.calls { stop = Some call } } }
    {
        self.calls.stop_at(call);
    }

    /// The disk after a crash now, which may leave of the writes that aren't synced what is picked: a disk
    /// with nothing pending and no failing calls.
    pub fn crashed(&self, pick: Pick) -> Result<MemDisk, NoMemory>
        ensures image { IfOk result (λ disk. leaves self.now (holds disk)) }
        ensures picked { IfOk result (λ disk. (part : Part) → holds disk part
            ≡ picked pick (file_of self.now.start part)
            (works part (newest_first self.now.calls.noted))) }
        ensures settled { IfOk result IsSettled }
    {
        let files = DiskFiles::of_bytes(
            self.picked(Part::Head, pick)?,
            self.picked(Part::Left, pick)?,
            self.picked(Part::Right, pick)?,
        );
        Ok(MemDisk {
            alloc: self.alloc,
            start: files.copy(self.alloc)?,
            files,
            calls: DiskCalls::new(self.alloc, Vec::new(self.alloc)),
        })
    }

    /// What a crash leaves of a file.
    fn picked(&self, part: Part, pick: Pick) -> Result<Vec<u8>, NoMemory>
        ensures { IfOk result (λ file. file.items
            ≡ picked pick (file_of self.now.start part)
            (works part (newest_first self.now.calls.noted))) }
    {
        let (start, now) = (self.start.get(part), self.files.get(part));
        let file = picked_file(self.alloc, start, now, self.calls.noted(), part, pick)?;
        Ok(file)
    }
}

impl Disk for MemDisk {
    ghost tells = { true };

    ghost seen = { holds };

    ghost may_leave = { leaves };

    ghost moment = { moment_of };

    ghost left_since = { left_from };

    ghost faults = { λ d. d.calls.faults };

    ghost reads_as = { λ d _. memory_reads_as d };

    ghost counts_now = { λ d t c _ _ now. memory_counts_now d t c now };

    ghost only_now = { λ d c _ left. memory_only_now d c left };

    /// It fails where the call is one of those that fail, and else only where memory is wanted for the
    /// record.
    fn size(&mut self, part: Part) -> Result<u64, Failed>
        ensures size { IfOk result (λ size. size ≡ length (holds self.old part)) }
        ensures seen { holds self.new ≡ holds self.old }
        ensures crash { Narrows (leaves self.old) (leaves self.new) }
        ensures time { Passes self.old self.new }
        ensures cause { HasCause self.old.calls.faults self.new.calls.faults result }
        ensures start { self.new.start ≡ self.old.start }
        ensures noted { Notes self.old.calls.noted self.new.calls.noted part
            work.Size (is_err result) }
        ensures fails { IsTrue (is_next_failing self.old.calls) → IsErr result }
        ensures only { OnErr result (MayFail self.old.calls) }
        ensures counts { Counts self.old.calls self.new.calls (is_err result) }
    {
        self.calls.admit(part, DiskWork::Size)?;
        Ok(self.files.get(part).len() as u64)
    }

    /// It fails where the call is one of those that fail, and else only where memory is wanted for the
    /// record. Else it gives as many bytes as there are and have room.
    fn read(&mut self, part: Part, at: u64, buf: &mut [u8]) -> Result<usize, Failed>
        requires { 0 < length buf.old }
        ensures bound { IfOk result (λ count. count ≤ length buf.new) }
        ensures bytes { IfOk result (Places at (holds self.old part) buf.new) }
        ensures seen { holds self.new ≡ holds self.old }
        ensures crash { Narrows (leaves self.old) (leaves self.new) }
        ensures time { Passes self.old self.new }
        ensures cause { HasCause self.old.calls.faults self.new.calls.faults result }
        ensures count { IfOk result (λ count. count
            ≡ min (length buf.old) (length (holds self.old part) - at)) }
        ensures start { self.new.start ≡ self.old.start }
        ensures noted { Notes self.old.calls.noted self.new.calls.noted part
            (work.Read at (length buf.old)) (is_err result) }
        ensures fails { IsTrue (is_next_failing self.old.calls) → IsErr result }
        ensures only { OnErr result (MayFail self.old.calls) }
        ensures counts { Counts self.old.calls self.new.calls (is_err result) }
    {
        let count = buf.len() as u64;
        self.calls.admit(part, DiskWork::Read { at, count })?;
        Ok(place(self.files.get(part), at, buf))
    }

    /// It fails where the call is one of those that fail, and else only where memory is wanted for the record
    /// or the file.
    fn write_at(&mut self, part: Part, at: u64, piece: &[u8]) -> Result<(), Failed>
        ensures written { OnOk result (holds self.new part
            ≡ overwritten at piece.now (holds self.old part)) }
        ensures elsewhere { Elsewhere part (holds self.old) (holds self.new) }
        ensures crash { Follows part (Torn at (length piece.now))
            (leaves self.old) (leaves self.new) }
        ensures time { Passes self.old self.new }
        ensures cause { HasCause self.old.calls.faults self.new.calls.faults result }
        ensures start { self.new.start ≡ self.old.start }
        ensures noted { Notes self.old.calls.noted self.new.calls.noted part
            (work.Write at piece.now) (is_err result) }
        ensures fails { IsTrue (is_next_failing self.old.calls) → IsErr result }
        ensures counts { Counts self.old.calls self.new.calls (is_err result) }
    {
        let Ok(kept) = piece.to_vec(self.alloc) else {
            return Err(self.calls.refuse());
        };
        let piece_kept = Bytes::from_items(kept);
        self.calls.admit(
            part,
            DiskWork::Write {
                at,
                piece: piece_kept,
            },
        )?;
        match self.files.write(part, at, piece) {
            Ok(()) => Ok(()),
            Err(_) => Err(self.calls.take_back()),
        }
    }

    /// It fails where the call is one of those that fail, and else only where memory is wanted for the record
    /// or for a longer file.
    fn cut(&mut self, part: Part, size: u64) -> Result<(), Failed>
        ensures cut { OnOk result (holds self.new part ≡ resized size (holds self.old part)) }
        ensures elsewhere { Elsewhere part (holds self.old) (holds self.new) }
        ensures crash { Follows part (Stretched size) (leaves self.old) (leaves self.new) }
        ensures time { Passes self.old self.new }
        ensures cause { HasCause self.old.calls.faults self.new.calls.faults result }
        ensures start { self.new.start ≡ self.old.start }
        ensures noted { Notes self.old.calls.noted self.new.calls.noted part
            (work.Cut size) (is_err result) }
        ensures fails { IsTrue (is_next_failing self.old.calls) → IsErr result }
        ensures only { OnErr result (MayFail self.old.calls
            ⊎ (length (holds self.old part) < size)) }
        ensures counts { Counts self.old.calls self.new.calls (is_err result) }
    {
        self.calls.admit(part, DiskWork::Cut { size })?;
        match self.files.cut(part, size) {
            Ok(()) => Ok(()),
            Err(_) => Err(self.calls.take_back()),
        }
    }

    /// It fails where the call is one of those that fail, and else only where memory is wanted for the
    /// record.
    fn sync(&mut self, part: Part) -> Result<(), Failed>
        ensures durable { OnOk result (OnlyIn part (holds self.old part) (leaves self.new)) }
        ensures seen { holds self.new ≡ holds self.old }
        ensures crash { Narrows (leaves self.old) (leaves self.new) }
        ensures time { Passes self.old self.new }
        ensures cause { HasCause self.old.calls.faults self.new.calls.faults result }
        ensures start { self.new.start ≡ self.old.start }
        ensures noted { Notes self.old.calls.noted self.new.calls.noted part
            work.Sync (is_err result) }
        ensures fails { IsTrue (is_next_failing self.old.calls) → IsErr result }
        ensures only { OnErr result (MayFail self.old.calls) }
        ensures counts { Counts self.old.calls self.new.calls (is_err result) }
    {
        self.calls.admit(part, DiskWork::Sync)?;
        Ok(())
    }
}
