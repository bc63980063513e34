//! The lives of a store run on its points, from its last snapshot on or from the first point.

ghost use Rattle.std.specs.Prelude.{◌≡◌, ◌<◌, ◌≤◌, ◌+◌, ◌^◌, ℕ, false, length, IfErr, IfOk, IsErrOf, IsTrue, List, OnOk};
ghost use Rattle.lambda_types.specs.Builds.{AtMostOneMore};
ghost use Rattle.kap_io.specs.Moments.{Quiet};
ghost use Rattle.kap_io.specs.declared.disk.Part.{Part};
ghost use Rattle.edge_queue.specs.declared.TheConstants.{CAPACITY_LIMIT};
ghost use Rattle.store_kept.specs.Keeping.{AreValid};
ghost use Rattle.store_records.specs.Histories.{held};
ghost use Rattle.store_records.specs.declared.rec.Rec.{Rec};
ghost use Rattle.tick_compile.specs.declared.tasks.Task.{Task};
ghost use Rattle.topic_store.specs.Stores.{IsOn};
ghost use Rattle.engine_runs.specs.Scripts.{AreTasksOf};
ghost use Rattle.engine_runs.specs.Whole.{IsConsistent};
ghost use Rattle.engine_store.specs.Asking.{AreScripts};
ghost use Rattle.engine_store.specs.Faults.{EngineCause, HasStates, IsAsked, IsOfOpening, IsWhyNone};
ghost use Rattle.engine_store.specs.declared.fault.EngineFault.TheVariants.{NotStore};
ghost use Rattle.engine_store.specs.Good.{graphs_in};
ghost use Rattle.engine_store.specs.Opening.{HasBegun, HasRunAll};

use crate::asking::ask_scripts;
use crate::fault::{EngineFault, run_fault};
use edge_queue::CAPACITY_LIMIT;
use engine_runs::EngineRun;
use kap_io::{Disk, Gate};
use lambda_types::Patterns;
use net_run::{NumberingNode, Way};
use node_set::ScriptNode;
use std::alloc::Global;
use std::thread::Threads;
use topic_core::{Transition, transition_laws};
use topic_store::Store;

/// The lives of a store behind its last snapshot, or before the first point where there is none.
fn begin_run<N: ScriptNode + NumberingNode + Send, D: Disk, P: Patterns>(
    alloc: Global,
    store: &Store,
    disk: &mut D,
    capacity: u32,
    pats: &mut P,
) -> Result<EngineRun<N>, EngineFault>
    requires usable { store.now.log.spent ≡ false }
    requires valid { AreValid store.now.kept }
    requires some { 0 < capacity }
    requires limit { capacity ≤ CAPACITY_LIMIT }
    ensures unspent { IfOk result (λ run. run.spent ≡ false) }
    ensures fits { IsTrue D.tells → (rs : List Rec)
        → IsOn rs (D.seen disk.old) (D.may_leave disk.old) store.now
        → OnOk result (HasStates N.Node N.planned rs) }
    ensures begun { IsTrue D.tells → (rs : List Rec) (tasks : List Task)
        → IsOn rs (D.seen disk.old) (D.may_leave disk.old) store.now
        → AreTasksOf (held rs).lives tasks
        → IsConsistent N.Node (graphs_in N.Node N.planned rs tasks) rs
        → IfOk result (HasBegun N.Node N.planned rs tasks) }
    ensures why { IsTrue D.tells → (rs : List Rec)
        → IsOn rs (D.seen disk.old) (D.may_leave disk.old) store.now
        → AreScripts (held rs).tasks (held rs).lives → (part : Part) (offset : ℕ)
        → IsErrOf result (NotStore part offset) → (part ≡ store.now.log.part)
        × IsWhyNone N.Node N.planned (P.refusals pats.old) (P.refusals pats.new)
        (P.refused pats.new) rs offset }
    ensures quiet { IsTrue D.tells
        → Quiet D.seen D.moment D.may_leave D.left_since disk.old disk.new }
    ensures faults { IfErr result IsOfOpening }
    ensures cause { EngineCause (D.faults disk.old) (D.faults disk.new) result }
    ensures kept { OnOk result (P.refusals pats.new ≡ P.refusals pats.old) }
    ensures counted { AtMostOneMore (P.refusals pats.old) (P.refusals pats.new) }
{
    transition_laws();
    let Some((gate, numbers, states)) = store.snap(disk)? else {
        return Ok(EngineRun::new(alloc, capacity));
    };
    let (points, transitions) = store.last_snap().unwrap_or((0, 0));
    let topics = store.topics_behind(disk, transitions)?;
    let restored = EngineRun::restore(
        alloc,
        store.lives(),
        numbers.as_slice(),
        points,
        topics,
        states.as_slice(),
        capacity,
        pats,
    );
    match restored {
        Ok(run) => Ok(run),
        Err(fault) => Err(run_fault(store.part(), gate, fault)),
    }
}

/// The lives of a store run on the points behind those on which they have run, and the transitions are told
/// that aren't stored.
fn run_rest<
    N: ScriptNode + NumberingNode + Send,
    D: Disk,
    P: Patterns,
    R: Threads + Sync,
    G: Gate + Sync,
>(
    alloc: Global,
    store: &Store,
    disk: &mut D,
    run: &mut EngineRun<N>,
    way: &Way<'_, R, G>,
    pats: &mut P,
) -> Result<Vec<Transition>, EngineFault>
    requires usable { store.now.log.spent ≡ false }
    requires valid { AreValid store.now.kept }
    requires unspent { run.old.spent ≡ false }
    ensures unspent { OnOk result (run.new.spent ≡ false) }
    ensures runs { IsTrue D.tells → (rs : List Rec) (tasks : List Task)
        → IsOn rs (D.seen disk.old) (D.may_leave disk.old) store.now
        → AreTasksOf (held rs).lives tasks → HasBegun N.Node N.planned rs tasks run.old
        → IfOk result (λ due. HasRunAll N.Node N.planned rs tasks 0 run.new due.items) }
    ensures why { IsTrue D.tells → (rs : List Rec)
        → IsOn rs (D.seen disk.old) (D.may_leave disk.old) store.now
        → AreScripts (held rs).tasks (held rs).lives → (part : Part) (offset : ℕ)
        → IsErrOf result (NotStore part offset) → (part ≡ store.now.log.part)
        × IsWhyNone N.Node N.planned (P.refusals pats.old) (P.refusals pats.new)
        (P.refused pats.new) rs offset }
    ensures quiet { IsTrue D.tells
        → Quiet D.seen D.moment D.may_leave D.left_since disk.old disk.new }
    ensures faults { IfErr result IsOfOpening }
    ensures cause { EngineCause (D.faults disk.old) (D.faults disk.new) result }
    ensures kept { OnOk result (P.refusals pats.new ≡ P.refusals pats.old) }
    ensures counted { AtMostOneMore (P.refusals pats.old) (P.refusals pats.new) }
{
    let mut due = Vec::new(alloc);
    let mut reader = store.read_points(run.points());
    'reading: for _ in 0..u64::MAX {
        let (piece, behind) = reader.next(store, disk)?;
        if piece.is_empty() {
            return Ok(due);
        }
        let ran = run.run(
            alloc,
            store.lives(),
            &piece,
            store.trans_count(),
            way,
            &mut due,
            pats,
        );
        if let Err(fault) = ran {
            return Err(run_fault(store.part(), 0, fault));
        }
        reader = behind;
    }
    // No store has points for so many pieces.
    Err(EngineFault::NoMemory)
}

/// The lives of a store, run on all its points, and the transitions that aren't stored. Behind the last point
/// those lives are gone that have ended, and those are there that begin; each has its number.
pub fn run_store<
    N: ScriptNode + NumberingNode + Send,
    D: Disk,
    P: Patterns,
    R: Threads + Sync,
    G: Gate + Sync,
>(
    alloc: Global,
    store: &Store,
    disk: &mut D,
    capacity: u32,
    way: &Way<'_, R, G>,
    pats: &mut P,
) -> Result<(EngineRun<N>, Vec<Transition>), EngineFault>
    requires usable { store.now.log.spent ≡ false }
    requires valid { AreValid store.now.kept }
    requires some { 0 < capacity }
    requires limit { capacity ≤ CAPACITY_LIMIT }
    ensures unspent { IfOk result (λ made. made.0.spent ≡ false) }
    ensures asked { IsTrue D.tells → (rs : List Rec)
        → IsOn rs (D.seen disk.old) (D.may_leave disk.old) store.now
        → OnOk result (IsAsked N.Node N.planned rs) }
    ensures runs { IsTrue D.tells → (rs : List Rec) (tasks : List Task)
        → IsOn rs (D.seen disk.old) (D.may_leave disk.old) store.now
        → AreTasksOf (held rs).lives tasks
        → IsConsistent N.Node (graphs_in N.Node N.planned rs tasks) rs
        → IfOk result (λ made. HasRunAll N.Node N.planned rs tasks 1 made.0 made.1.items) }
    ensures numbered { IsTrue D.tells → (rs : List Rec) (tasks : List Task)
        → IsOn rs (D.seen disk.old) (D.may_leave disk.old) store.now
        → AreTasksOf (held rs).lives tasks
        → IsConsistent N.Node (graphs_in N.Node N.planned rs tasks) rs
        → IfOk result (λ made. length made.0.names ≡ length (held rs).lives) }
    ensures few { IfOk result (λ made. store.now.kept.transitions + length made.1.items < 2 ^ 64) }
    ensures why { IsTrue D.tells → (rs : List Rec)
        → IsOn rs (D.seen disk.old) (D.may_leave disk.old) store.now
        → (part : Part) (offset : ℕ)
        → IsErrOf result (NotStore part offset) → (part ≡ store.now.log.part)
        × IsWhyNone N.Node N.planned (P.refusals pats.old) (P.refusals pats.new)
        (P.refused pats.new) rs offset }
    ensures quiet { IsTrue D.tells
        → Quiet D.seen D.moment D.may_leave D.left_since disk.old disk.new }
    ensures faults { IfErr result IsOfOpening }
    ensures cause { EngineCause (D.faults disk.old) (D.faults disk.new) result }
    ensures kept { OnOk result (P.refusals pats.new ≡ P.refusals pats.old) }
    ensures counted { AtMostOneMore (P.refusals pats.old) (P.refusals pats.new) }
{
    if let Err(fault) = ask_scripts(alloc, store.tasks(), store.lives(), pats) {
        return Err(run_fault(store.part(), 0, fault));
    }
    let mut run = begin_run(alloc, store, disk, capacity, pats)?;
    let due = run_rest(alloc, store, disk, &mut run, way, pats)?;
    if let Err(fault) = run.turn(alloc, store.lives(), pats) {
        return Err(run_fault(store.part(), 0, fault));
    }
    if store.trans_count().checked_add(due.len() as u64).is_none() {
        return Err(EngineFault::NoMemory);
    }
    Ok((run, due))
}
