//! What is stored behind a batch: the transitions that its points make, and a snapshot where one is due.

ghost use Rattle.std.specs.Prelude.{◌≡◌, ◌⊎◌, ◌+◌, ◌-◌, ◌<◌, ◌^◌, [], false, length, IfErr, IfOk, IsTrue, List, OnOk};
ghost use Rattle.kap_io.specs.Moments.{Moments};
ghost use Rattle.store_kept.specs.Keeping.{AreValid};
ghost use Rattle.store_records.specs.Histories.{held};
ghost use Rattle.store_records.specs.States.{AreStates};
ghost use Rattle.store_records.specs.declared.rec.Rec.{Rec};
ghost use Rattle.topic_store.specs.Adding.{stands_before_or_after};
ghost use Rattle.topic_store.specs.Stores.{IsOn};
ghost use Rattle.engine_runs.specs.Running.{HasRun};
ghost use Rattle.engine_store.specs.Faults.{EngineCause};
ghost use Rattle.engine_store.specs.Good.{IsFull, IsGood};
ghost use Rattle.engine_store.specs.Opening.{HasRunAll};
ghost use Rattle.engine_store.specs.declared.fault.EngineFault.TheVariants.{DiskFault, NoMemory as no_memory};
ghost use Rattle.kap_engine.specs.Writing.{HasSnap, HasStored, snap_of, snapped_in, stands_storing};

use crate::SNAP_POINTS;
use engine_runs::EngineRun;
use engine_store::{EngineFault, add_transitions};
use kap_base::Bytes;
use kap_io::Disk;
use net_run::NumberingNode;
use node_set::ScriptNode;
use std::alloc::Global;
use store_records::{Rec, Transitions};
use topic_core::{Transition, transition_laws};
use topic_store::{Store, StoreFault};

/// How many points of a store stand behind its last snapshot.
fn unsnapped(store: &Store) -> u64
    ensures { result ≡ store.now.kept.points - snapped_in store.now.kept.snap }
{
    let (points, _) = store.last_snap().unwrap_or((0, 0));
    store.count().saturating_sub(points)
}

/// Adds a snapshot with these states, unless its record is longer than a log takes.
fn add_states<D: Disk>(store: &mut Store, disk: &mut D, states: Bytes) -> Result<(), EngineFault>
    requires usable { store.old.log.spent ≡ false }
    requires form { AreStates states }
    ensures added { IsTrue D.tells → (rs : List Rec)
        → IsOn rs (D.seen disk.old) (D.may_leave disk.old) store.old
        → OnOk result (HasSnap rs states (D.seen disk.new) (D.may_leave disk.new) store.new) }
    ensures any_moment { IsTrue D.tells → (rs : List Rec)
        → IsOn rs (D.seen disk.old) (D.may_leave disk.old) store.old
        → Moments D.moment D.may_leave D.left_since disk.old disk.new
        (stands_before_or_after rs (snap_of rs states)) }
    ensures usable { OnOk result (store.new.log.spent ≡ false) }
    ensures valid { AreValid store.old.kept → AreValid store.new.kept }
    ensures faults { IfErr result (λ f. (f ≡ DiskFault) ⊎ (f ≡ no_memory)) }
    ensures cause { EngineCause (D.faults disk.old) (D.faults disk.new) result }
{
    let points = store.count();
    let trans = store.trans_count();
    let rec = Rec::Snap {
        points,
        trans,
        states,
    };
    match store.add(disk, &rec) {
        Ok(()) => Ok(()),
        Err(StoreFault::Long) => Ok(()),
        Err(fault) => Err(EngineFault::from(fault)),
    }
}

/// Adds a snapshot of the lives of a store, which have run on all its points, where `SNAP_POINTS` of these or
/// more stand behind the last one; but none whose record is longer than a log takes.
fn add_snapshot<N: ScriptNode + NumberingNode + Send, D: Disk>(
    alloc: Global,
    store: &mut Store,
    run: &EngineRun<N>,
    disk: &mut D,
) -> Result<(), EngineFault>
    requires usable { store.old.log.spent ≡ false }
    requires unspent { run.now.spent ≡ false }
    ensures stored { IsTrue D.tells → (rs : List Rec) (full : IsFull N.Node N.planned rs)
        → IsOn rs (D.seen disk.old) (D.may_leave disk.old) store.old
        → HasRun N.Node N.planned (held rs).lives full.good.tasks (held rs).points 1 run.now
        → OnOk result (HasStored N.Node N.planned rs full.good.tasks []
        (D.seen disk.new) (D.may_leave disk.new) store.new) }
    ensures any_moment { IsTrue D.tells → (rs : List Rec) (full : IsFull N.Node N.planned rs)
        → IsOn rs (D.seen disk.old) (D.may_leave disk.old) store.old
        → HasRun N.Node N.planned (held rs).lives full.good.tasks (held rs).points 1 run.now
        → Moments D.moment D.may_leave D.left_since disk.old disk.new
        (stands_storing N.Node N.planned rs) }
    ensures usable { OnOk result (store.new.log.spent ≡ false) }
    ensures valid { AreValid store.old.kept → AreValid store.new.kept }
    ensures faults { IfErr result (λ f. (f ≡ DiskFault) ⊎ (f ≡ no_memory)) }
    ensures cause { EngineCause (D.faults disk.old) (D.faults disk.new) result }
{
    if unsnapped(store) < SNAP_POINTS {
        return Ok(());
    }
    let Some(states) = run.snapshot(alloc)? else {
        return Ok(());
    };
    add_states(store, disk, states)
}

/// Stores the transitions that are due of a store's lives, which have run on all its points, and gives them
/// back; and then a snapshot, where one is due.
pub(crate) fn store_due<N: ScriptNode + NumberingNode + Send, D: Disk>(
    alloc: Global,
    store: &mut Store,
    run: &EngineRun<N>,
    disk: &mut D,
    due: Vec<Transition>,
) -> Result<Transitions, EngineFault>
    requires usable { store.old.log.spent ≡ false }
    requires unspent { run.now.spent ≡ false }
    ensures stored { IsTrue D.tells → (rs : List Rec) (good : IsGood N.Node N.planned rs)
        → IsOn rs (D.seen disk.old) (D.may_leave disk.old) store.old
        → HasRunAll N.Node N.planned rs good.tasks 1 run.now due.items
        → store.old.kept.transitions + length due.items < 2 ^ 64
        → OnOk result (HasStored N.Node N.planned rs good.tasks due.items
        (D.seen disk.new) (D.may_leave disk.new) store.new) }
    ensures any_moment { IsTrue D.tells → (rs : List Rec) (good : IsGood N.Node N.planned rs)
        → IsOn rs (D.seen disk.old) (D.may_leave disk.old) store.old
        → HasRunAll N.Node N.planned rs good.tasks 1 run.now due.items
        → store.old.kept.transitions + length due.items < 2 ^ 64
        → Moments D.moment D.may_leave D.left_since disk.old disk.new
        (stands_storing N.Node N.planned rs) }
    ensures same { IfOk result (λ given. given ≡ due.items) }
    ensures usable { OnOk result (store.new.log.spent ≡ false) }
    ensures valid { AreValid store.old.kept → AreValid store.new.kept }
    ensures faults { IfErr result (λ f. (f ≡ DiskFault) ⊎ (f ≡ no_memory)) }
    ensures cause { EngineCause (D.faults disk.old) (D.faults disk.new) result }
{
    transition_laws();
    let stored = add_transitions(alloc, store, disk, due)?;
    add_snapshot(alloc, store, run, disk)?;
    Ok(stored)
}
