//! The command that writes points.

ghost use Rattle.std.specs.Prelude.{◌≡◌, ◌≢◌, ◌⊎◌, ◌<◌, false, true, ℕ, Some, IfErr, IfOk, IsTrue, List, OnOk, IsUtf8};
ghost use Rattle.std.specs.List.{list_all};
ghost use Rattle.std.specs.Io.KnownBytes.{Appends};
ghost use Rattle.kap_base.specs.Points.{is_time};
ghost use Rattle.kap_base.specs.Texts.{has_line_feed};
ghost use Rattle.kap_base.specs.Words.{HasRisen};
ghost use Rattle.kap_io.specs.Moments.{Moments, Quiet};
ghost use Rattle.kap_io.specs.Pieces.{AppendsPrefix};
ghost use Rattle.line_points.specs.Line.{has_time};
ghost use Rattle.line_points.specs.declared.mode.Mode.{Mode};
ghost use Rattle.recording_file.specs.Reading.{HasEnded};
ghost use Rattle.store_records.specs.Lines.{are_lines, is_of};
ghost use Rattle.store_records.specs.declared.rec.Rec.{Rec};
ghost use Rattle.topic_store.specs.Stores.{Stands};
ghost use Rattle.engine_store.specs.Good.{IsGood};
ghost use Rattle.kap_server.specs.Changing.{EndsReading, OpensBehind, is_early};
ghost use Rattle.kap_server.specs.Options.{AreWithinLimits, AreWriteLimits, unit_of};
ghost use Rattle.kap_server.specs.ReadingIn.{IsAll};
ghost use Rattle.kap_server.specs.Writing.{AreOfBody, EndsWriting, ReadsLines, Writes, WrittenTo, stays_or_writing};

use crate::inputs::read_all;
use crate::options::{ReplayOptions, WriteOptions, capacity_of, unit_of, workers_of};
use crate::status::Status;
use flow_core::Net;
use kap_base::{Bytes, Points, TASK_LIMIT, Text};
use kap_engine::Engine;
use kap_io::{Disk, Failed, Gate, Sink, Source, write_all};
use lambda_types::Patterns;
use line_points::{Mode, read_body};
use net_run::NumberingNode;
use node_set::ScriptNode;
use std::alloc::Global;
use std::thread::Threads;

/// How many bytes the lines that are to be written have at most.
pub const BODY_LIMIT: usize = 8_388_608;

/// Writes the text of what the lives did at points that were written, and hands out the net that ran them.
fn hand_out<K: Sink, N: ScriptNode + NumberingNode + Send>(
    text: &Bytes,
    engine: Engine<N>,
    out: &mut K,
    ran: &mut Option<Net<N>>,
) -> Status
    ensures ok { result ≡ Status.Ok → Appends (K.written out.old) (K.written out.new) text.now
        × (ran.new ≡ Some engine.run.net) }
    ensures err { result ≢ Status.Ok
        → AppendsPrefix (K.written out.old) (K.written out.new) text.now
        × (ran.new ≡ ran.old) }
    ensures status { (result ≡ Status.Ok) ⊎ (result ≡ Status.WriteFault) }
    ensures write_fault { result ≡ Status.WriteFault
        → HasRisen (K.faults out.old) (K.faults out.new) }
{
    match write_all(out, text.as_slice()) {
        Ok(()) => {
            *ran = Some(engine.into_net());
            Status::Ok
        }
        Err(Failed) => Status::WriteFault,
    }
}

/// Opens the store on the disk, with an engine, and writes points, which are of this database and policy; then
/// the text of what the lives did at them.
fn write_on<
    K: Sink,
    D: Disk,
    P: Patterns,
    N: ScriptNode + NumberingNode + Send,
    G: Gate + Sync,
    R: Threads + Sync,
>(
    rt: &R,
    alloc: Global,
    options: ReplayOptions,
    db: &Text,
    rp: &Text,
    points: Points,
    out: &mut K,
    disk: &mut D,
    pats: &mut P,
    gate: &G,
    ran: &mut Option<Net<N>>,
) -> Status
    requires limits { AreWithinLimits options }
    requires lines { IsTrue (are_lines (db.now, rp.now)) }
    requires points { IsTrue (list_all (is_of db.now rp.now) points) }
    ensures ends { IsTrue D.tells → (rs : List Rec) (good : IsGood N.Node N.planned rs)
        → Stands rs (D.seen disk.old) → WrittenTo N.Node N.planned rs good points
        (P.refusals pats.old) (P.refusals pats.new) (D.seen disk.new) (D.may_leave disk.new)
        (K.written out.old) (K.written out.new) ran.new result }
    ensures any_moment { IsTrue D.tells → (rs : List Rec) → IsGood N.Node N.planned rs
        → Stands rs (D.seen disk.old) → Moments D.moment D.may_leave D.left_since disk.old disk.new
        (stays_or_writing N.Node N.planned rs points) }
    ensures opened { IsTrue D.tells → OpensBehind N.Node N.planned (P.refusals pats.old)
        (P.refusals pats.new) (P.refused pats.new)
        (Quiet D.seen D.moment D.may_leave D.left_since disk.old disk.new)
        (D.seen disk.old) result }
    ensures status { EndsWriting result }
    ensures none { result ≢ Status.Ok → ran.new ≡ ran.old }
    ensures unwritten { result ≢ Status.Ok → result ≢ Status.WriteFault → out.new ≡ out.old }
    ensures write_fault { result ≡ Status.WriteFault
        → HasRisen (K.faults out.old) (K.faults out.new) }
    ensures disk_fault { result ≡ Status.DiskFault
        → HasRisen (D.faults disk.old) (D.faults disk.new) }
{
    let workers = workers_of(options, TASK_LIMIT);
    let capacity = capacity_of(options);
    let mut engine: Engine<N> = match Engine::make_engine(
        rt, alloc, disk, workers, capacity, gate, pats,
    ) {
        Ok(engine) => engine,
        Err(fault) => return Status::from(fault),
    };
    match engine.write(rt, alloc, disk, db, rp, points, gate) {
        Ok(text) => hand_out(&text, engine, out, ran),
        Err(fault) => Status::from(fault),
    }
}

/// The points of the lines that the input gives, of this database and policy.
fn read_points<S: Source>(
    alloc: Global,
    mode: &Mode,
    db: &Text,
    rp: &Text,
    input: &mut S,
) -> Result<Points, Status>
    requires db { has_line_feed db.now ≡ false }
    requires rp { has_line_feed rp.now ≡ false }
    requires time { IsTrue (has_time mode.now) }
    ensures points { IfOk result (λ points. (body : List ℕ) × IsAll (S.left input.old) body
        × AreOfBody db.now rp.now mode.now body points) }
    ensures of { IfOk result (λ points. IsTrue (list_all (is_of db.now rp.now) points)) }
    ensures ended { OnOk result (HasEnded (S.left input.old) (S.left input.new)) }
    ensures fault { IfErr result (ReadsLines db.now rp.now mode.now
        (S.left input.old) (S.left input.new)) }
    ensures early { IfErr result EndsReading }
    ensures read_fault { IfErr result (λ s. s ≡ Status.ReadFault
        → HasRisen (S.faults input.old) (S.faults input.new)) }
{
    let body = read_all(alloc, BODY_LIMIT, input)?;
    match read_body(alloc, body.as_slice(), db, rp, mode) {
        Ok(points) => Ok(points),
        Err(fault) => Err(Status::from(fault)),
    }
}

/// The texts of two words.
fn texts_of(alloc: Global, one: &str, other: &str) -> Result<(Text, Text), Status>
    ensures one { IfOk result (λ texts. (texts.0 ≡ one.now) × IsUtf8 texts.0) }
    ensures other { IfOk result (λ texts. (texts.1 ≡ other.now) × IsUtf8 texts.1) }
    ensures err { IfErr result (λ s. s ≡ Status.NoMemory) }
{
    let one = Text::from_str(alloc, one)?;
    let other = Text::from_str(alloc, other)?;
    Ok((one, other))
}

/// Writes the points of the lines that the input gives, to this database and policy. The store is opened once
/// each line is read.
pub(crate) fn write<
    S: Source,
    K: Sink,
    D: Disk,
    P: Patterns,
    N: ScriptNode + NumberingNode + Send,
    G: Gate + Sync,
    R: Threads + Sync,
>(
    rt: &R,
    alloc: Global,
    options: WriteOptions,
    db: &str,
    rp: &str,
    now: i64,
    input: &mut S,
    out: &mut K,
    disk: &mut D,
    pats: &mut P,
    gate: &G,
    ran: &mut Option<Net<N>>,
) -> Status
    requires limits { AreWriteLimits options }
    requires db { has_line_feed db.now ≡ false }
    requires rp { has_line_feed rp.now ≡ false }
    requires now { IsTrue (is_time now) }
    ensures written { IsTrue D.tells → (rs : List Rec) (good : IsGood N.Node N.planned rs)
        → Stands rs (D.seen disk.old)
        → (EndsReading result × (disk.new ≡ disk.old) × (out.new ≡ out.old))
        ⊎ Writes N.Node N.planned D.seen D.moment D.may_leave D.left_since db.now rp.now
        (Mode.Live (unit_of options) now) rs good (S.left input.old)
        (K.written out.old) (K.written out.new) (P.refusals pats.old) (P.refusals pats.new)
        disk.old disk.new ran.new result }
    ensures lines { ReadsLines db.now rp.now (Mode.Live (unit_of options) now)
        (S.left input.old) (S.left input.new) result }
    ensures unopened { is_early result ≡ true
        → (disk.new ≡ disk.old) × (out.new ≡ out.old) }
    ensures opened { IsTrue D.tells → OpensBehind N.Node N.planned (P.refusals pats.old)
        (P.refusals pats.new) (P.refused pats.new)
        (Quiet D.seen D.moment D.may_leave D.left_since disk.old disk.new)
        (D.seen disk.old) result }
    ensures none { result ≢ Status.Ok → ran.new ≡ ran.old }
    ensures unwritten { result ≢ Status.Ok → result ≢ Status.WriteFault → out.new ≡ out.old }
    ensures read { result ≡ Status.Ok → HasEnded (S.left input.old) (S.left input.new) }
    ensures read_fault { result ≡ Status.ReadFault
        → HasRisen (S.faults input.old) (S.faults input.new) }
    ensures write_fault { result ≡ Status.WriteFault
        → HasRisen (K.faults out.old) (K.faults out.new) }
    ensures disk_fault { result ≡ Status.DiskFault
        → HasRisen (D.faults disk.old) (D.faults disk.new) }
{
    let (db, rp) = match texts_of(alloc, db, rp) {
        Ok(names) => names,
        Err(status) => return status,
    };
    let mode = Mode::Live {
        unit: unit_of(options),
        now,
    };
    match read_points(alloc, &mode, &db, &rp, input) {
        Ok(points) => write_on(
            rt,
            alloc,
            options.running,
            &db,
            &rp,
            points,
            out,
            disk,
            pats,
            gate,
            ran,
        ),
        Err(status) => status,
    }
}
