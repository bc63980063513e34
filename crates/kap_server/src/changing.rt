//! The commands that define, enable, disable and delete tasks.

ghost use Rattle.std.specs.Prelude.{◌≡◌, ◌⊎◌, ◌≤◌, ◌∷◌, ◌++◌, [], false, true, length, IfErr, IfOk, IsTrue, List, OnOk};
ghost use Rattle.kap_base.specs.Words.{HasRisen};
ghost use Rattle.kap_base.specs.Texts.{is_task_id};
ghost use Rattle.kap_base.specs.declared.limits.TheConstants.{SCRIPT_LIMIT};
ghost use Rattle.kap_io.specs.Moments.{Moments, Quiet};
ghost use Rattle.recording_file.specs.Reading.{HasEnded};
ghost use Rattle.store_records.specs.declared.rec.Rec.{Rec};
ghost use Rattle.topic_store.specs.Stores.{Stands};
ghost use Rattle.engine_store.specs.Asking.{IsScript};
ghost use Rattle.engine_store.specs.Faults.{EngineCause};
ghost use Rattle.engine_store.specs.Good.{IsGood};
ghost use Rattle.kap_engine.specs.Changing.{IsRefusal, IsWhyNoneEnabled, stands_full_before_or_after};
ghost use Rattle.kap_engine.specs.Engines.{IsEngine};
ghost use Rattle.kap_server.specs.Changing.{Changes, DefinedTo, Defines, EndsChange, EndsDefinition, EndsReading, IsScriptFault, IsTaskScript, is_early, OpensBehind, OpensToChange, ReadsScript, record_of, stays_or_changed};
ghost use Rattle.kap_server.specs.ReadingIn.{IsAll};
ghost use Rattle.kap_server.specs.Readying.{is_pattern_refused};

use crate::inputs::read_all;
use crate::options::{capacity_of, no_options, workers_of};
use crate::status::Status;
use crate::words::Change;
use kap_base::{SCRIPT_LIMIT, TASK_LIMIT, Text, TextFault};
use kap_engine::{Engine, EngineFault};
use kap_io::{Disk, Gate, Source};
use lambda_types::Patterns;
use net_run::NumberingNode;
use node_set::ScriptNode;
use std::alloc::Global;
use std::thread::Threads;
use tick_compile::{compile, scripts_have_one_answer};

/// The text of a script of a task.
fn script_of<P: Patterns>(alloc: Global, bytes: &[u8], pats: &mut P) -> Result<Text, Status>
    requires { length bytes.now ≤ SCRIPT_LIMIT }
    ensures script { IfOk result (λ text. (text ≡ bytes.now) × IsScript bytes.now) }
    ensures fault { IfErr result (IsScriptFault (P.refused pats.new) bytes.now) }
    ensures kept { OnOk result (P.refusals pats.new ≡ P.refusals pats.old) }
    ensures rose { IfErr result (λ s. is_pattern_refused s ≡ true
        → HasRisen (P.refusals pats.old) (P.refusals pats.new)) }
{
    if let Err(fault) = compile(alloc, bytes, pats) {
        return Err(Status::from(fault));
    }
    match Text::from_bytes(alloc, bytes) {
        Ok(script) => Ok(script),
        // Each script of a task is UTF-8.
        Err(TextFault::NotUtf8 | TextFault::NoMemory) => Err(Status::NoMemory),
    }
}

/// The script of a task that the input gives.
fn read_script<S: Source, P: Patterns>(
    alloc: Global,
    input: &mut S,
    pats: &mut P,
) -> Result<Text, Status>
    ensures script { IfOk result (λ text. IsTaskScript text × IsAll (S.left input.old) text) }
    ensures ended { OnOk result (HasEnded (S.left input.old) (S.left input.new)) }
    ensures fault { IfErr result (ReadsScript (P.refused pats.new)
        (S.left input.old) (S.left input.new)) }
    ensures early { IfErr result EndsReading }
    ensures kept { OnOk result (P.refusals pats.new ≡ P.refusals pats.old) }
    ensures rose { IfErr result (λ s. is_pattern_refused s ≡ true
        → HasRisen (P.refusals pats.old) (P.refusals pats.new)) }
    ensures read_fault { IfErr result (λ s. s ≡ Status.ReadFault
        → HasRisen (S.faults input.old) (S.faults input.new)) }
{
    let bytes = read_all(alloc, SCRIPT_LIMIT, input)?;
    script_of(alloc, bytes.as_slice(), pats)
}

/// Opens the store on the disk, with an engine, and defines a task, which isn't enabled.
fn define_on<
    D: Disk,
    P: Patterns,
    N: ScriptNode + NumberingNode + Send,
    G: Gate + Sync,
    R: Threads + Sync,
>(rt: &R, alloc: Global, id: &Text, script: &Text, disk: &mut D, pats: &mut P, gate: &G) -> Status
    requires id { IsTrue (is_task_id id.now) }
    requires short { length script.now ≤ SCRIPT_LIMIT }
    requires script { IsScript script.now }
    ensures ends { EndsDefinition (P.refused pats.new) script.now result }
    ensures defined { IsTrue D.tells → (rs : List Rec) → Stands rs (D.seen disk.old)
        → IsGood N.Node N.planned rs → DefinedTo N.Node N.planned rs id.now
        (Rec.Define id.now script.now false) (P.refusals pats.old) (P.refusals pats.new)
        (D.seen disk.new) (D.may_leave disk.new) result }
    ensures any_moment { IsTrue D.tells → (rs : List Rec) → Stands rs (D.seen disk.old)
        → IsGood N.Node N.planned rs
        → Moments D.moment D.may_leave D.left_since disk.old disk.new
        (stays_or_changed N.Node N.planned rs (Rec.Define id.now script.now false)) }
    ensures opened { IsTrue D.tells → OpensBehind N.Node N.planned (P.refusals pats.old)
        (P.refusals pats.new) (P.refused pats.new)
        (Quiet D.seen D.moment D.may_leave D.left_since disk.old disk.new)
        (D.seen disk.old) result }
    ensures rose { is_pattern_refused result ≡ true
        → HasRisen (P.refusals pats.old) (P.refusals pats.new) }
    ensures disk_fault { result ≡ Status.DiskFault
        → HasRisen (D.faults disk.old) (D.faults disk.new) }
{
    scripts_have_one_answer();
    let options = no_options();
    let workers = workers_of(options, TASK_LIMIT);
    let capacity = capacity_of(options);
    let mut engine: Engine<N> = match Engine::make_engine(
        rt, alloc, disk, workers, capacity, gate, pats,
    ) {
        Ok(engine) => engine,
        Err(fault) => return Status::from(fault),
    };
    match engine.define(alloc, disk, id, script, false, pats) {
        Ok(()) => Status::Ok,
        Err(fault) => Status::from(fault),
    }
}

/// Defines a task, which isn't enabled, with this id, by the script that the input gives. The store is opened
/// once the script is known to be a task's.
pub(crate) fn define<
    S: Source,
    D: Disk,
    P: Patterns,
    N: ScriptNode + NumberingNode + Send,
    G: Gate + Sync,
    R: Threads + Sync,
>(rt: &R, alloc: Global, id: &str, input: &mut S, disk: &mut D, pats: &mut P, gate: &G) -> Status
    requires id { IsTrue (is_task_id id.now) }
    ensures script { ReadsScript (P.refused pats.new) (S.left input.old) (S.left input.new) result }
    ensures defined { IsTrue D.tells → (rs : List Rec) → Stands rs (D.seen disk.old)
        → IsGood N.Node N.planned rs → (EndsReading result × (disk.new ≡ disk.old))
        ⊎ Defines N.Node N.planned D.seen D.moment D.may_leave D.left_since rs id.now
        (S.left input.old) (P.refusals pats.old) (P.refusals pats.new) disk.old disk.new result }
    ensures unopened { is_early result ≡ true → disk.new ≡ disk.old }
    ensures opened { IsTrue D.tells → OpensBehind N.Node N.planned (P.refusals pats.old)
        (P.refusals pats.new) (P.refused pats.new)
        (Quiet D.seen D.moment D.may_leave D.left_since disk.old disk.new)
        (D.seen disk.old) result }
    ensures read { result ≡ Status.Ok → HasEnded (S.left input.old) (S.left input.new) }
    ensures read_fault { result ≡ Status.ReadFault
        → HasRisen (S.faults input.old) (S.faults input.new) }
    ensures disk_fault { result ≡ Status.DiskFault
        → HasRisen (D.faults disk.old) (D.faults disk.new) }
    ensures rose { is_pattern_refused result ≡ true
        → HasRisen (P.refusals pats.old) (P.refusals pats.new) }
{
    let script = match read_script(alloc, input, pats) {
        Ok(script) => script,
        Err(status) => return status,
    };
    match Text::from_str(alloc, id) {
        Ok(id) => define_on::<D, P, N, G, R>(rt, alloc, &id, &script, disk, pats, gate),
        Err(fault) => Status::from(fault),
    }
}

/// Changes the task of an engine that has this id.
fn make_change<D: Disk, P: Patterns, N: ScriptNode + NumberingNode + Send>(
    alloc: Global,
    change: Change,
    id: &Text,
    engine: &mut Engine<N>,
    disk: &mut D,
    pats: &mut P,
) -> Result<(), EngineFault>
    requires unspent { engine.old.spent ≡ false }
    ensures changed { IsTrue D.tells → (rs : List Rec)
        → IsEngine N.Node N.planned rs (D.seen disk.old) (D.may_leave disk.old) engine.old
        → OnOk result (IsEngine N.Node N.planned (rs ++ record_of change id.now ∷ [])
        (D.seen disk.new) (D.may_leave disk.new) engine.new) }
    ensures any_moment { IsTrue D.tells → (rs : List Rec)
        → IsEngine N.Node N.planned rs (D.seen disk.old) (D.may_leave disk.old) engine.old
        → Moments D.moment D.may_leave D.left_since disk.old disk.new
        (stands_full_before_or_after N.Node N.planned rs (record_of change id.now)) }
    ensures why { IfErr result
        (IsWhyNoneEnabled (P.refusals pats.old) (P.refusals pats.new) (P.refused pats.new)
        engine.old.store.log.part id.now engine.old.store.kept.tasks) }
    ensures still { IfErr result (λ f. IsRefusal f
        → (engine.new ≡ engine.old) × (disk.new ≡ disk.old)) }
    ensures cause { EngineCause (D.faults disk.old) (D.faults disk.new) result }
{
    match change {
        Change::Enable => engine.enable(alloc, disk, id, pats),
        Change::Disable => engine.disable(alloc, disk, id),
        Change::Delete => engine.delete(alloc, disk, id),
    }
}

/// Opens the store on the disk, with an engine, and changes its task that has this id.
pub(crate) fn change<
    D: Disk,
    P: Patterns,
    N: ScriptNode + NumberingNode + Send,
    G: Gate + Sync,
    R: Threads + Sync,
>(rt: &R, alloc: Global, change: Change, id: &str, disk: &mut D, pats: &mut P, gate: &G) -> Status
    ensures ends { EndsChange result }
    ensures changed { IsTrue D.tells → (rs : List Rec) → Stands rs (D.seen disk.old)
        → IsGood N.Node N.planned rs
        → Changes N.Node N.planned D.seen D.moment D.may_leave D.left_since rs id.now
        (record_of change id.now) (P.refusals pats.old) (P.refusals pats.new)
        disk.old disk.new result }
    ensures opened { IsTrue D.tells → OpensToChange N.Node N.planned (P.refusals pats.old)
        (P.refusals pats.new) (P.refused pats.new)
        (Quiet D.seen D.moment D.may_leave D.left_since disk.old disk.new)
        (D.seen disk.old) (D.seen disk.new) id.now result }
    ensures disk_fault { result ≡ Status.DiskFault
        → HasRisen (D.faults disk.old) (D.faults disk.new) }
{
    scripts_have_one_answer();
    let options = no_options();
    let workers = workers_of(options, TASK_LIMIT);
    let capacity = capacity_of(options);
    let id = match Text::from_str(alloc, id) {
        Ok(id) => id,
        Err(fault) => return Status::from(fault),
    };
    let mut engine: Engine<N> = match Engine::make_engine(
        rt, alloc, disk, workers, capacity, gate, pats,
    ) {
        Ok(engine) => engine,
        Err(fault) => return Status::from(fault),
    };
    match make_change(alloc, change, &id, &mut engine, disk, pats) {
        Ok(()) => Status::Ok,
        Err(fault) => Status::from(fault),
    }
}
