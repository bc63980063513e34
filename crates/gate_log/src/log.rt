ghost use Rattle.std.specs.Prelude.{◌≡◌, ◌↔◌, ◌<◌, ◌≤◌, ◌++◌, ◌∷◌, [], false, true, List, ℕ, length, OnOk, IsTrue, ◌^◌, ◌*◌};
ghost use Rattle.kap_base.specs.Words.{HasRisen};
ghost use Rattle.kap_io.specs.Disk.{Elsewhere, On};
ghost use Rattle.kap_io.specs.Moments.{Moments};
ghost use Rattle.gate_log.specs.Bodies.{IsBeforeOrAfter};
ghost use Rattle.gate_log.specs.Causes.{AppendFault};
ghost use Rattle.gate_log.specs.Logs.{Rests};

use crate::append::{add_record, piece_of};
use crate::fault::LogFault;
use kap_io::{Disk, Part};
use std::alloc::Global;
use std::marker::Model;

/// The longest body, in bytes.
pub const BODY_LIMIT: usize = 67_108_864;

/// A log in one of the files of a disk. What its calls promise stands on the disk on which it was made or
/// opened, where since then only calls on it changed what a read of its file gives, or added to what a crash
/// may leave of it.
#[derive(Debug, Drop)]
pub struct Log {
    pub(crate) alloc: Global,
    pub(crate) part: Part,
    end: u64,
    spent: bool,
}

impl Model for Log {
    ghost use Rattle.gate_log.specs.Logs.{LogState};

    ghost Value = { LogState };

    ghost view = { λ l. record { part = l.part; end = l.end; spent = l.spent } };
}

impl Log {
    /// The log in this file whose closed gate stands at this offset.
    pub(crate) fn at(alloc: Global, part: Part, end: u64) -> Log
        ensures { result ≡ record { part = part; end = end; spent = false } }
    {
        Log {
            alloc,
            part,
            end,
            spent: false,
        }
    }

    /// Its file.
    pub fn part(&self) -> Part
        ensures { result ≡ self.now.part }
    {
        self.part
    }

    /// The offset of the closed gate, behind which the next body goes.
    pub fn end(&self) -> u64
        ensures { result ≡ self.now.end }
    {
        self.end
    }

    /// Whether a call on it failed in the middle. It is then to be opened anew.
    pub fn spent(&self) -> bool
        ensures { result ≡ self.now.spent }
    {
        self.spent
    }

    /// Gives it up, as a call on it does that failed in the middle: it is then to be opened anew.
    pub fn spend(&mut self)
        ensures { self.new ≡ record self.old { spent = true } }
    {
        self.spent = true;
    }

    /// Adds a body, by two writes, each of which is synced. From `Ok` on it is the last one in each image.
    /// `Long` comes exactly where the body has more than `BODY_LIMIT` bytes; `Long` and `NoMemory` change
    /// nothing. After `DiskFault`, which comes only where the disk's count of faults rose in this call, the
    /// log is spent, and each image has the old bodies, or these and the new one.
    pub fn append<D: Disk>(&mut self, disk: &mut D, body: &[u8]) -> Result<(), LogFault>
        requires { self.old.spent ≡ false }
        ensures added { IsTrue D.tells → (bodies : List (List ℕ))
            → Rests bodies (D.seen disk.old) (D.may_leave disk.old) self.old
            → OnOk result (Rests (bodies ++ body.now ∷ [])
            (D.seen disk.new) (D.may_leave disk.new) self.new) }
        ensures usable { OnOk result (self.new.spent ≡ false) }
        ensures any_moment { IsTrue D.tells → (bodies : List (List ℕ))
            → Rests bodies (D.seen disk.old) (D.may_leave disk.old) self.old
            → Moments D.moment D.may_leave D.left_since disk.old disk.new
            (On self.old.part (λ _ file. IsBeforeOrAfter bodies body.now file)) }
        ensures elsewhere { IsTrue D.tells
            → Elsewhere self.old.part (D.seen disk.old) (D.seen disk.new) }
        ensures part { self.new.part ≡ self.old.part }
        ensures long { (result ≡ Err LogFault.Long) ↔ (BODY_LIMIT < length body.now) }
        ensures later { D.faults disk.old ≤ D.faults disk.new }
        ensures cause { AppendFault result disk.old disk.new self.old self.new
            (HasRisen (D.faults disk.old) (D.faults disk.new)) }
    {
        if body.len() > BODY_LIMIT {
            return Err(LogFault::Long);
        }
        let piece = piece_of(self.alloc, body)?;
        let Some(end) = self.end.checked_add(5 + body.len() as u64) else {
            return Err(LogFault::NoMemory);
        };
        if end == u64::MAX {
            return Err(LogFault::NoMemory);
        }
        match add_record(disk, self.part, self.end, &piece) {
            Ok(()) => {
                self.end = end;
                Ok(())
            }
            Err(fault) => {
                self.spent = true;
                Err(fault.into())
            }
        }
    }
}

/// The longest body, as a number of bytes.
pub fn limit_is_a_number()
    ensures { BODY_LIMIT ≡ 64 * 2 ^ 20 }
{}
