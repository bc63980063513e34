//! The points of an epoch are read, and those of the next one while nodes run on it.

ghost use Rattle.std.specs.Prelude.{◌≡◌, ◌≢◌, ◌⊎◌, ◌<◌, ◌≤◌, ℕ, List, [], Option, None, Some, false, IfOk, OnOk, IsTrue, length};
ghost use Rattle.kap_base.specs.Words.{HasRisen};
ghost use Rattle.net_run.specs.declared.TheConstants.{EPOCH_LIMIT};
ghost use Rattle.recording_file.specs.Reading.{HoldsGroup, ReaderState};
ghost use Rattle.recording_file.specs.declared.fault.RecFault.{RecFault};
ghost use Rattle.kap_server.specs.Epochs.{IsAhead, IsEpoch, IsLeft, Pauses};

use kap_base::{Bytes, NoMemory, Point, Shared};
use kap_io::{MemSource, Source};
use net_run::EPOCH_LIMIT;
use recording_file::{Reader, RecFault};
use std::alloc::Global;

/// Why an epoch ends.
#[derive(Drop)]
pub(crate) enum Pause {
    /// It has as many points as it may, or the next one may have to be waited for.
    More,
    /// The recording has ended.
    End,
    /// The recording is faulty, or can't be read on.
    Fault(RecFault),
}

/// The points of an epoch, and why it ends.
#[derive(Drop)]
pub(crate) struct Epoch {
    pub(crate) points: Vec<Shared<Point>>,
    pub(crate) pause: Pause,
}

/// Reads points, up to `limit` of them, and no longer than the next one is surely there. Where the first one
/// is surely there the input isn't asked at all. Where it may have to be waited for, all text that is due for
/// the points before must be written: `due` is what isn't, and clauses alone look at it.
pub(crate) fn read_epoch<S: Source>(
    alloc: Global,
    reader: &mut Reader,
    limit: usize,
    due: &Bytes,
    input: &mut S,
) -> Result<Epoch, NoMemory>
    requires spent { reader.old.spent ≡ false }
    requires some { 0 < limit }
    requires written { (due.now ≡ []) ⊎ HoldsGroup reader.old }
    ensures pauses { IfOk result (λ e. Pauses e.pause reader.old reader.new
        (S.left input.old) (S.left input.new) e.points.items) }
    ensures few { IfOk result (λ e. length e.points.items ≤ limit) }
    ensures held { HoldsGroup reader.old → input.new ≡ input.old }
    ensures later { S.faults input.old ≤ S.faults input.new }
    ensures rose { IfOk result (λ e. e.pause ≡ Pause.Fault RecFault.ReadFault
        → HasRisen (S.faults input.old) (S.faults input.new)) }
{
    let mut points = Vec::new(alloc);
    'reading: loop {
        let point = match reader.next(alloc, input) {
            Ok(Some(point)) => point,
            Ok(None) => {
                return Ok(Epoch {
                    points,
                    pause: Pause::End,
                });
            }
            Err(fault) => {
                return Ok(Epoch {
                    points,
                    pause: Pause::Fault(fault),
                });
            }
        };
        points.push(point)?;
        if limit <= points.len() || !reader.holds_point() {
            return Ok(Epoch {
                points,
                pause: Pause::More,
            });
        }
    }
}

/// A source with a byte that nobody reads.
fn unread(alloc: Global) -> Result<MemSource, NoMemory>
    ensures left { IfOk result (λ source. IsLeft (⟦<MemSource as Source>⟧.left source)) }
    ensures faults { IfOk result (λ source. ⟦<MemSource as Source>⟧.faults source ≡ 0) }
{
    let mut bytes = Vec::new(alloc);
    bytes.push(0)?;
    Ok(MemSource::new(alloc, bytes, 1, Vec::new(alloc)))
}

/// Reads points that the reader holds, up to `limit` of them. No source is asked, whatever the reader's is.
fn read_held(alloc: Global, reader: &mut Reader, limit: usize) -> Result<Epoch, NoMemory>
    requires spent { reader.old.spent ≡ false }
    requires some { 0 < limit }
    requires holds { HoldsGroup reader.old }
    ensures pauses { (t : Option (List ℕ)) → IfOk result (λ e.
        Pauses e.pause reader.old reader.new t t e.points.items) }
    ensures few { IfOk result (λ e. length e.points.items ≤ limit) }
    ensures not_failed { IfOk result (λ e. e.pause ≢ Pause.Fault RecFault.ReadFault) }
{
    let mut source = unread(alloc)?;
    let mut points = Vec::new(alloc);
    'reading: loop {
        let point = match reader.next(alloc, &mut source) {
            Ok(Some(point)) => point,
            Ok(None) => {
                return Ok(Epoch {
                    points,
                    pause: Pause::End,
                });
            }
            Err(fault) => {
                return Ok(Epoch {
                    points,
                    pause: Pause::Fault(fault),
                });
            }
        };
        points.push(point)?;
        if limit <= points.len() || !reader.holds_point() {
            return Ok(Epoch {
                points,
                pause: Pause::More,
            });
        }
    }
}

/// Reads epoch by epoch, the next one ahead where it is told to.
#[derive(Drop)]
pub(crate) struct EpochReader {
    pub(crate) reader: Reader,
    /// The next epoch, where it was read ahead.
    pub(crate) ahead: Option<Epoch>,
}

impl EpochReader {
    ghost use Rattle.std.specs.Prelude.{◌≡◌, ◌⊎◌, ◌<◌, ◌≤◌, [], None, false, IfOk, OnOk, IsTrue};
    ghost use Rattle.net_run.specs.declared.TheConstants.{EPOCH_LIMIT};
    ghost use Rattle.recording_file.specs.Reading.{HoldsGroup, ReaderState};
    ghost use Rattle.kap_server.specs.Epochs.{IsAhead, IsEpoch};

    /// Nothing was read.
    pub(crate) fn new(alloc: Global) -> EpochReader
        ensures reader { result.reader
            ≡ record { given = []; got = []; ended = false; spent = false } }
        ensures none { result.ahead ≡ None }
    {
        EpochReader {
            reader: Reader::new(alloc),
            ahead: None,
        }
    }

    /// Whether the points of the next epoch are surely there: they were read ahead, or the first is held.
    pub(crate) fn is_ready(&self) -> bool
        requires { self.now.ahead ≡ None → self.now.reader.spent ≡ false }
        ensures { IsTrue result → self.now.ahead ≡ None → HoldsGroup self.now.reader }
    {
        match self.ahead {
            Some(_) => true,
            None => self.reader.holds_point(),
        }
    }

    /// The next epoch: the one that was read ahead, or else of up to `limit` points, which are read now.
    /// Where points may have to be waited for, all text that is due must be written: `due` is what isn't.
    pub(crate) fn next<S: Source>(
        &mut self,
        alloc: Global,
        limit: usize,
        due: &Bytes,
        input: &mut S,
    ) -> Result<Epoch, NoMemory>
        requires spent { self.old.ahead ≡ None → self.old.reader.spent ≡ false }
        requires some { 0 < limit }
        requires most { limit ≤ EPOCH_LIMIT }
        requires written { self.old.ahead ≡ None → (due.now ≡ []) ⊎ HoldsGroup self.old.reader }
        ensures epoch { (before : ReaderState) → IsAhead before self.old.reader self.old.ahead
            → IfOk result (IsEpoch before self.new.reader (S.left input.old) (S.left input.new)
            (S.faults input.old) (S.faults input.new)) }
        ensures none { self.new.ahead ≡ None }
        ensures later { S.faults input.old ≤ S.faults input.new }
    {
        match self.ahead.take() {
            Some(epoch) => Ok(epoch),
            None => read_epoch(alloc, &mut self.reader, limit, due, input),
        }
    }

    /// Reads the next epoch ahead, of up to `limit` points, as far as the reader holds them.
    pub(crate) fn read_ahead(self, alloc: Global, limit: usize) -> Result<EpochReader, NoMemory>
        requires none { self.ahead ≡ None }
        requires some { 0 < limit }
        requires most { limit ≤ EPOCH_LIMIT }
        ensures { IfOk result (λ r. IsAhead self.reader r.reader r.ahead) }
    {
        let EpochReader { mut reader, .. } = self;
        if reader.is_spent() || !reader.holds_point() {
            return Ok(EpochReader {
                reader,
                ahead: None,
            });
        }
        let epoch = read_held(alloc, &mut reader, limit)?;
        Ok(EpochReader {
            reader,
            ahead: Some(epoch),
        })
    }
}
