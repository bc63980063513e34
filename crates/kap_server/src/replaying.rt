//! The replay of tasks that are ready to run.

ghost use Rattle.std.specs.Prelude.{◌≡◌, ◌≢◌, ◌⊎◌, ◌≤◌, [], None, false, map, OnOk, OnErr};
ghost use Rattle.std.specs.List.{AllByRecursion as Each};
ghost use Rattle.kap_base.specs.Words.{HasRisen};
ghost use Rattle.kap_io.specs.Causes.{HasCause};
ghost use Rattle.kap_io.specs.Pieces.{AppendsPrefix};
ghost use Rattle.recording_file.specs.Reading.{HasEnded, HoldsGroup};
ghost use Rattle.flow_core.specs.Gathering.{LivesRise};
ghost use Rattle.flow_core.specs.Making.{HasFewParents};
ghost use Rattle.task_run.specs.Plans.{AreFirstStates, graph_of};
ghost use Rattle.kap_server.specs.Nets.{HoldsNet, HoldsNetOf};
ghost use Rattle.kap_server.specs.Options.{AreWithinLimits};
ghost use Rattle.kap_server.specs.Replaying.{IsWritten, WritesSome, Replayed};
ghost use Rattle.kap_server.specs.Runs.{EndsWritten, run_rest, run_text};

use crate::options::{ReplayOptions, capacity_of};
use crate::reading::{Epoch, EpochReader, Pause};
use crate::status::Status;
use crate::telling::Telling;
use crate::ways::parts_of;
use effect_text::TaskNames;
use flow_core::Net;
use kap_base::{Bytes, NoMemory};
use kap_io::{Failed, Gate, Sink, Source, write_all};
use net_run::{NumberingNode, Way};
use std::alloc::Global;
use std::thread::Threads;
use task_run::LifePlan;

/// From how many bytes on the text that is due is written.
const DUE_LIMIT: usize = 65_536;

/// Writes the text that is due.
fn write_due<K: Sink>(out: &mut K, text: &mut Bytes) -> Result<(), Failed>
    ensures ok { OnOk result
        (WritesSome text.old text.new (K.written out.old) (K.written out.new)) }
    ensures err { OnErr result (AppendsPrefix (K.written out.old) (K.written out.new) text.old) }
    ensures none { OnOk result (text.new ≡ []) }
    ensures cause { HasCause (K.faults out.old) (K.faults out.new) result }
{
    write_all(out, text.as_slice())?;
    text.clear();
    Ok(())
}

/// Writes the text that is due, where it is a whole piece, or where the reader may have to wait for the next
/// point.
fn write_piece<K: Sink>(out: &mut K, text: &mut Bytes, reading: &EpochReader) -> Result<(), Failed>
    requires { reading.now.ahead ≡ None → reading.now.reader.spent ≡ false }
    ensures ok { OnOk result
        (WritesSome text.old text.new (K.written out.old) (K.written out.new)) }
    ensures err { OnErr result (AppendsPrefix (K.written out.old) (K.written out.new) text.old) }
    ensures due { OnOk result (reading.now.ahead ≡ None
        → (text.new ≡ []) ⊎ HoldsGroup reading.now.reader) }
    ensures cause { HasCause (K.faults out.old) (K.faults out.new) result }
{
    let ready = reading.is_ready();
    if !ready || DUE_LIMIT <= text.len() {
        write_due(out, text)?;
    }
    Ok(())
}

/// Writes the rest of the text that is due, and answers the status, or `WriteFault` where the output failed.
fn write_rest<K: Sink>(out: &mut K, text: &Bytes, status: Status) -> Status
    ensures written { IsWritten status result
        (K.written out.old) (K.written out.new) text.now (K.faults out.old) (K.faults out.new) }
    ensures later { K.faults out.old ≤ K.faults out.new }
{
    match write_all(out, text.as_slice()) {
        Ok(()) => status,
        Err(_) => Status::WriteFault,
    }
}

/// Writes the rest of the text of a whole recording, and the lines of what was dropped, where they are
/// wanted. Where all was written it hands out the net.
fn finish<K: Sink, N: NumberingNode + Send>(
    alloc: Global,
    counts: bool,
    names: &[TaskNames],
    telling: Telling<N>,
    text: Bytes,
    out: &mut K,
    ran: &mut Option<Net<N>>,
) -> Status
    requires { telling.run.spent ≡ false }
    ensures written { EndsWritten result (K.written out.old) (K.written out.new) text
        (run_rest N.answer counts names.now telling.run.lives telling.run.points)
        (K.faults out.old) (K.faults out.new) }
    ensures later { K.faults out.old ≤ K.faults out.new }
    ensures net { result ≡ Status.Ok
        → HoldsNet N.Node telling.run.lives telling.run.points ran.new }
    ensures none { result ≢ Status.Ok → ran.new ≡ ran.old }
{
    let mut text = text;
    if telling.put_counts(alloc, counts, names, &mut text).is_err() {
        return Status::NoMemory;
    }
    let Telling { run, .. } = telling;
    let Ok(net) = run.into_net(alloc) else {
        return Status::NoMemory;
    };
    match write_rest(out, &text, Status::Ok) {
        Status::Ok => {
            *ran = Some(net);
            Status::Ok
        }
        status => status,
    }
}

/// Replays the recording that the input gives, in this way: the text of what the nodes do, epoch by epoch,
/// and behind it of what they dropped, where that is wanted. Where points are held, next ones are read in
/// their memory, and where several parts run on an epoch, the next one is read meanwhile. What is due is
/// written before each read of the input that may wait. At Ok it hands out the net.
pub(crate) fn replay<
    S: Source,
    K: Sink,
    N: NumberingNode + Send,
    G: Gate + Sync,
    R: Threads + Sync,
>(
    alloc: Global,
    options: ReplayOptions,
    names: &[TaskNames],
    plans: Vec<LifePlan<N>>,
    hold: bool,
    way: &Way<'_, R, G>,
    input: &mut S,
    out: &mut K,
    ran: &mut Option<Net<N>>,
) -> Status
    requires first { AreFirstStates N.spec N.state N.first plans.items }
    requires rise { LivesRise N.life N.number 1 (map (graph_of N.spec) plans.items) }
    requires few { Each HasFewParents plans.items }
    requires limits { AreWithinLimits options }
    ensures replayed { Replayed
        (run_text N.answer names.now (map (graph_of N.spec) plans.items))
        (run_rest N.answer options.counts names.now (map (graph_of N.spec) plans.items)) result
        (S.left input.old) (S.left input.new) (K.written out.old) (K.written out.new) }
    ensures net { result ≡ Status.Ok → HoldsNetOf N.Node
        (map (graph_of N.spec) plans.items) (S.left input.old) ran.new }
    ensures none { result ≢ Status.Ok → ran.new ≡ ran.old }
    ensures read { result ≡ Status.Ok → HasEnded (S.left input.old) (S.left input.new) }
    ensures read_fault { result ≡ Status.ReadFault
        → HasRisen (S.faults input.old) (S.faults input.new) }
    ensures write_fault { result ≡ Status.WriteFault
        → HasRisen (K.faults out.old) (K.faults out.new) }
{
    let parts = parts_of(way);
    let mut telling = match Telling::new(alloc, capacity_of(options), hold, parts, plans) {
        Ok(telling) => telling,
        Err(NoMemory) => return Status::NoMemory,
    };
    let mut reading = EpochReader::new(alloc);
    let mut text = Bytes::new(alloc);
    'replaying: loop {
        match write_piece(out, &mut text, &reading) {
            Ok(()) => {}
            Err(_) => return Status::WriteFault,
        }
        let limit = telling.pace.limit();
        let Epoch { points, pause } = match reading.next(alloc, limit, &text, input) {
            Ok(epoch) => epoch,
            Err(NoMemory) => return Status::NoMemory,
        };
        match telling.tell(alloc, names, points, way, &mut reading, &mut text) {
            Ok(points) => reading.reader.reuse(points),
            Err(NoMemory) => return Status::NoMemory,
        }
        match pause {
            Pause::More => {}
            Pause::End => {
                return finish(alloc, options.counts, names, telling, text, out, ran);
            }
            Pause::Fault(fault) => return write_rest(out, &text, Status::from(fault)),
        }
    }
}
