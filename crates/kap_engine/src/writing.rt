//! Points are written: stored, run, and their transitions stored.

ghost use Rattle.std.specs.Prelude.{◌≡◌, ◌⊎◌, ◌+◌, ◌++◌, ◌<◌, ◌^◌, [], false, true, ℕ, length, IfErr, IfOk, IsTrue, List, OnOk};
ghost use Rattle.std.specs.List.{AllByRecursion as Each, list_all};
ghost use Rattle.kap_base.specs.Points.{PointValue};
ghost use Rattle.kap_io.specs.Moments.{Moments};
ghost use Rattle.flow_core.specs.Nets.{HasStreamsCarried};
ghost use Rattle.store_records.specs.Lines.{are_lines, is_of};
ghost use Rattle.store_records.specs.declared.rec.Rec.{Rec};
ghost use Rattle.store_records.specs.declared.task.Life.{Life};
ghost use Rattle.tick_compile.specs.declared.tasks.Task.{Task};
ghost use Rattle.engine_runs.specs.Running.{HasRun, Tells};
ghost use Rattle.engine_store.specs.Faults.{EngineCause};
ghost use Rattle.engine_store.specs.declared.fault.EngineFault.TheVariants.{DiskFault, NoMemory as no_memory};
ghost use Rattle.kap_engine.specs.Engines.{IsEngine};
ghost use Rattle.kap_engine.specs.Writing.{HasWritten, stands_writing};

use crate::engine::Engine;
use crate::storing::store_due;
use engine_runs::{EngineRun, effects_come_behind, open_lives_run};
use engine_store::EngineFault;
use kap_base::{Bytes, NoMemory, Point, Points, Shared, Text};
use kap_io::{Disk, Gate};
use net_run::{NumberingNode, Way, Workers, few_points};
use node_set::ScriptNode;
use std::alloc::Global;
use std::thread::Threads;
use topic_core::Transition;
use topic_store::Store;

/// Points, each with one owner.
fn shared_points(alloc: Global, points: Points) -> Result<Vec<Shared<Point>>, NoMemory>
    ensures { IfOk result (λ shared. shared.items ≡ points) }
{
    let mut shared = Vec::new(alloc);
    'sharing: for point in points.into_items() {
        shared.push(Shared::new(alloc, point)?)?;
    }
    Ok(shared)
}

/// Runs the lives of a store on more points, at which none begins or ends: the text of what they do, and the
/// transitions that these points make. With those that are stored these are fewer than 2^64.
fn run_points<N: ScriptNode + NumberingNode + Send, R: Threads + Sync, G: Gate + Sync>(
    alloc: Global,
    store: &Store,
    run: &mut EngineRun<N>,
    points: Points,
    way: &Way<'_, R, G>,
) -> Result<(Bytes, Vec<Transition>), NoMemory>
    requires { run.old.spent ≡ false }
    ensures unspent { OnOk result (run.new.spent ≡ false) }
    ensures runs { OnOk result ((lives : List Life) (tasks : List Task)
        (before : List PointValue) (more : ℕ)
        → HasRun N.Node N.planned lives tasks before (length points + more) run.old
        → HasRun N.Node N.planned lives tasks (before ++ points) more run.new) }
    ensures tells { IfOk result (λ did. (lives : List Life) (tasks : List Task)
        (before : List PointValue) (more : ℕ)
        → HasRun N.Node N.planned lives tasks before (length points + more) run.old
        → Tells N.Node N.planned lives tasks before points [] did.0 [] did.1.items) }
    ensures few { IfOk result (λ did. store.now.kept.transitions + length did.1.items < 2 ^ 64) }
    ensures names { OnOk result (run.new.names ≡ run.old.names) }
    ensures streams { 0 < length points
        → OnOk result (Each (HasStreamsCarried N.Node) run.new.net.lives) }
{
    let points = shared_points(alloc, points)?;
    let mut text = Bytes::new(alloc);
    let mut told = Vec::new(alloc);
    run.run_on(alloc, &points, way, &mut text, &mut told)?;
    if store.trans_count().checked_add(told.len() as u64).is_none() {
        return Err(NoMemory);
    }
    Ok((text, told))
}

impl<N: ScriptNode + NumberingNode + Send> Engine<N> {
    /// Writes points, which are ungrouped and of this database and policy: they are stored as one batch, run
    /// in epochs, and the transitions that they make are stored; and where `SNAP_POINTS` or
    /// more stand behind the last snapshot, another one is, unless its record is longer than a log takes. The
    /// answer is the text of what the lives did. At each moment each image of the disk stands for a right
    /// store with all of the points or none, and from Ok on with all, and all transitions.
    ///
    /// `DiskFault` comes only where the disk's count of faults rose in this call, and `NoMemory` where memory
    /// ran out, or where the points are more than one record takes. No other answer comes. Unless nothing has
    /// changed the engine is spent then: the points are stored or not, never in part.
    pub fn write<D: Disk, R: Threads + Sync, G: Gate + Sync>(
        &mut self,
        rt: &R,
        alloc: Global,
        disk: &mut D,
        db: &Text,
        rp: &Text,
        points: Points,
        gate: &G,
    ) -> Result<Bytes, EngineFault>
        requires unspent { self.old.spent ≡ false }
        requires lines { IsTrue (are_lines (db.now, rp.now)) }
        requires points { IsTrue (list_all (is_of db.now rp.now) points) }
        ensures unspent { OnOk result (self.new.spent ≡ false) }
        ensures written { IsTrue D.tells → (rs : List Rec)
            → (at : IsEngine N.Node N.planned rs (D.seen disk.old) (D.may_leave disk.old) self.old)
            → IfOk result (HasWritten N.Node N.planned rs at.full.good.tasks points
            (D.seen disk.new) (D.may_leave disk.new) self.new) }
        ensures any_moment { IsTrue D.tells → (rs : List Rec)
            → IsEngine N.Node N.planned rs (D.seen disk.old) (D.may_leave disk.old) self.old
            → Moments D.moment D.may_leave D.left_since disk.old disk.new
            (stands_writing N.Node N.planned rs points) }
        ensures streams { 0 < length points
            → OnOk result (Each (HasStreamsCarried N.Node) self.new.run.net.lives) }
        ensures still { IfErr result (λ f. self.new.spent ≡ false
            → (self.new ≡ self.old) × (disk.new ≡ disk.old)) }
        ensures spends { IfErr result (λ f. f ≡ DiskFault → self.new.spent ≡ true) }
        ensures faults { IfErr result (λ f. (f ≡ DiskFault) ⊎ (f ≡ no_memory)) }
        ensures cause { EngineCause (D.faults disk.old) (D.faults disk.new) result }
    {
        effects_come_behind::<N>();
        open_lives_run::<N>();
        if let Err(fault) = self.store.add_batch(disk, db, rp, points.as_slice()) {
            self.spent = self.store.spent();
            return Err(EngineFault::from(fault));
        }
        self.spent = true;
        let least = few_points(self.run.net().lives().len());
        let way = Way::Workers(Workers::new(rt, self.workers, gate, least));
        let (text, told) = run_points(alloc, &self.store, &mut self.run, points, &way)?;
        self.stored = store_due(alloc, &mut self.store, &self.run, disk, told)?;
        self.spent = false;
        Ok(text)
    }
}
