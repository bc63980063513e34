//! Tasks are defined, enabled, disabled and deleted.

ghost use Rattle.std.specs.Prelude.{◌≡◌, ◌≤◌, ◌∷◌, ◌++◌, [], ℕ, false, true, if◌then◌else◌, length, slice_get, IfErr, IfOk, IsTrue, List, OnOk};
ghost use Rattle.kap_base.specs.Words.{HasRisen};
ghost use Rattle.kap_base.specs.Texts.{is_task_id};
ghost use Rattle.kap_base.specs.declared.limits.TheConstants.{SCRIPT_LIMIT};
ghost use Rattle.lambda_types.specs.Builds.{AtMostOneMore};
ghost use Rattle.kap_io.specs.Moments.{Moments};
ghost use Rattle.store_records.specs.Held.{MayFollow, begun, has_task, life_of};
ghost use Rattle.store_records.specs.Histories.{end_of, held};
ghost use Rattle.store_records.specs.Orders.{DefinesValid};
ghost use Rattle.store_records.specs.declared.rec.Rec.{Rec};
ghost use Rattle.store_records.specs.declared.task.Life.{Life};
ghost use Rattle.tick_compile.specs.Tasks.{is_refusal};
ghost use Rattle.engine_runs.specs.Scripts.{IsTaskOf};
ghost use Rattle.engine_store.specs.Faults.{EngineCause};
ghost use Rattle.engine_store.specs.declared.fault.EngineFault.TheVariants.{DiskFault as disk_failed};
ghost use Rattle.kap_engine.specs.Changing.{AreNext, CanBeDefined, ChangesTask, DefinesScript, HasBegun, IsFailure, IsRefusal, IsWhyNoneDefined, IsWhyNoneEnabled, IsWhyNoneEnded, IsWhyNotPlanned, ending, fault_at, stands_full_before_or_after};
ghost use Rattle.kap_engine.specs.Engines.{IsEngine};

use crate::engine::Engine;
use engine_runs::{EngineRun, NextLife};
use engine_store::{EngineFault, compile_fault};
use kap_base::{Duplicate, NoMemory, TASK_LIMIT, Text};
use kap_io::{Disk, Part};
use lambda_types::Patterns;
use net_run::NumberingNode;
use node_set::ScriptNode;
use std::alloc::Global;
use store_records::{Rec, Transitions, find_task, has_task};
use tick_compile::{ScriptFault, Task, compile};

/// What the fault of a script is that the record at this place of a log defined.
fn fault_at(part: Part, offset: u64, fault: ScriptFault) -> EngineFault
    ensures { result ≡ fault_at part offset fault }
{
    match fault {
        ScriptFault::NoMemory => EngineFault::NoMemory,
        _ => EngineFault::NotStore { part, offset },
    }
}

/// The record that deletes the task with this id, or that disables it.
fn ending(id: Text, deletes: bool) -> Rec
    ensures same { result ≡ ending deletes id }
    ensures changes { ChangesTask result }
    ensures valid { DefinesValid result }
{
    if deletes {
        Rec::Delete { id }
    } else {
        Rec::Disable { id }
    }
}

/// The life begins that was planned, where one was.
fn begin_planned<N: ScriptNode + NumberingNode + Send>(
    alloc: Global,
    run: &mut EngineRun<N>,
    next: Option<NextLife<N>>,
) -> Result<(), NoMemory>
    requires { run.old.spent ≡ false }
    ensures unspent { OnOk result (run.new.spent ≡ false) }
    ensures begun { OnOk result (HasBegun N.Node N.planned run.old run.new next) }
{
    match next {
        Some(next) => run.begin_next(alloc, next),
        None => Ok(()),
    }
}

impl<N: ScriptNode + NumberingNode + Send> Engine<N> {
    /// The life that begins where the task at this place is enabled; none where it is enabled already.
    fn plan_enabled<P: Patterns>(
        &self,
        alloc: Global,
        place: usize,
        pats: &mut P,
    ) -> Result<Option<NextLife<N>>, EngineFault>
        requires unspent { self.now.spent ≡ false }
        ensures next { IfOk result (λ next. (n : ℕ) → AreNext N.Node N.planned
            (length self.now.run.names)
            (life_of n (slice_get self.now.store.kept.tasks place)) next) }
        ensures why { IfErr result
            (IsWhyNotPlanned (P.refusals pats.old) (P.refusals pats.new) (P.refused pats.new)
            self.now.store.log.part (slice_get self.now.store.kept.tasks place)) }
        ensures counted { AtMostOneMore (P.refusals pats.old) (P.refusals pats.new) }
    {
        let Some(task) = self.store.tasks().get(place) else {
            return Ok(None);
        };
        if task.enabled {
            return Ok(None);
        }
        let made = match compile(alloc, task.script.bytes(), pats) {
            Ok(made) => made,
            Err(fault) => return Err(fault_at(self.store.part(), task.define_at, fault)),
        };
        let next = self.run.plan_next(alloc, &task.id, made)?;
        Ok(Some(next))
    }

    /// The life that begins where a task of this id is defined by a script; none where it isn't enabled.
    fn plan_defined(
        &self,
        alloc: Global,
        id: &Text,
        enabled: bool,
        task: Task,
    ) -> Result<Option<NextLife<N>>, NoMemory>
        ensures next { IfOk result (λ next. (life : Life) → life.task ≡ id.now → IsTaskOf life task
            → AreNext N.Node N.planned (length self.now.run.names)
            (if enabled then life ∷ [] else []) next) }
    {
        if !enabled {
            return Ok(None);
        }
        let next = self.run.plan_next(alloc, id, task)?;
        Ok(Some(next))
    }

    /// Adds a record that changes a task to the store, begins the life that was planned for it, and ends the
    /// one that ends with it.
    fn add_change<D: Disk>(
        &mut self,
        alloc: Global,
        disk: &mut D,
        rec: &Rec,
        next: Option<NextLife<N>>,
    ) -> Result<(), EngineFault>
        requires unspent { self.old.spent ≡ false }
        requires changes { ChangesTask rec.now }
        requires valid { DefinesValid rec.now }
        ensures unspent { OnOk result (self.new.spent ≡ false) }
        ensures changed { IsTrue D.tells → (rs : List Rec)
            → IsEngine N.Node N.planned rs (D.seen disk.old) (D.may_leave disk.old) self.old
            → MayFollow (held rs) rec.now → DefinesScript rec.now
            → AreNext N.Node N.planned (length self.old.run.names)
            (begun (length (held rs).points) (end_of rs) rec.now (held rs).tasks) next
            → OnOk result (IsEngine N.Node N.planned (rs ++ rec.now ∷ [])
            (D.seen disk.new) (D.may_leave disk.new) self.new) }
        ensures any_moment { IsTrue D.tells → (rs : List Rec)
            → IsEngine N.Node N.planned rs (D.seen disk.old) (D.may_leave disk.old) self.old
            → MayFollow (held rs) rec.now → DefinesScript rec.now
            → Moments D.moment D.may_leave D.left_since disk.old disk.new
            (stands_full_before_or_after N.Node N.planned rs rec.now) }
        ensures stored { OnOk result (self.new.stored ≡ []) }
        ensures failed { IfErr result IsFailure }
        ensures quiet { IfErr result (λ f. self.new.spent ≡ false
            → (self.new ≡ self.old) × (disk.new ≡ disk.old)) }
        ensures spends { IfErr result (λ f. f ≡ disk_failed → self.new.spent ≡ true) }
        ensures cause { EngineCause (D.faults disk.old) (D.faults disk.new) result }
    {
        if let Err(fault) = self.store.add(disk, rec) {
            self.spent = self.store.spent();
            return Err(EngineFault::from(fault));
        }
        self.spent = true;
        self.stored = Transitions::new(alloc);
        begin_planned(alloc, &mut self.run, next)?;
        self.run.end_lives(self.store.lives());
        self.spent = false;
        Ok(())
    }

    /// Defines a task with this id by a script, enabled or not. `Script` comes exactly where the script isn't
    /// that of a task; else `Exists` exactly where a task has the id; else `TooManyTasks` exactly where 64 are
    /// there. These change nothing. `DiskFault` comes in place of none of them, and only where the disk's
    /// count of faults rose in this call; `NoMemory` comes where memory ran out: the engine is spent then,
    /// unless nothing has changed.
    pub fn define<D: Disk, P: Patterns>(
        &mut self,
        alloc: Global,
        disk: &mut D,
        id: &Text,
        script: &Text,
        enabled: bool,
        pats: &mut P,
    ) -> Result<(), EngineFault>
        requires unspent { self.old.spent ≡ false }
        requires id { IsTrue (is_task_id id.now) }
        requires short { length script.now ≤ SCRIPT_LIMIT }
        ensures unspent { OnOk result (self.new.spent ≡ false) }
        ensures defined { IsTrue D.tells → (rs : List Rec)
            → IsEngine N.Node N.planned rs (D.seen disk.old) (D.may_leave disk.old) self.old
            → OnOk result (IsEngine N.Node N.planned
            (rs ++ Rec.Define id.now script.now enabled ∷ [])
            (D.seen disk.new) (D.may_leave disk.new) self.new) }
        ensures any_moment { IsTrue D.tells → (rs : List Rec)
            → IsEngine N.Node N.planned rs (D.seen disk.old) (D.may_leave disk.old) self.old
            → Moments D.moment D.may_leave D.left_since disk.old disk.new
            (stands_full_before_or_after N.Node N.planned rs
            (Rec.Define id.now script.now enabled)) }
        ensures stored { OnOk result (self.new.stored ≡ []) }
        ensures could { OnOk result
            (CanBeDefined self.old.store.kept.tasks id.now script.now) }
        ensures why { IfErr result
            (IsWhyNoneDefined (P.refused pats.new) id.now script.now self.old.store.kept.tasks) }
        ensures rose { IfErr result (λ f. (fault : _) → f ≡ EngineFault.Script fault
            → is_refusal fault ≡ true → HasRisen (P.refusals pats.old) (P.refusals pats.new)) }
        ensures still { IfErr result (λ f. IsRefusal f
            → (self.new ≡ self.old) × (disk.new ≡ disk.old)) }
        ensures quiet { IfErr result (λ f. self.new.spent ≡ false
            → (self.new ≡ self.old) × (disk.new ≡ disk.old)) }
        ensures spends { IfErr result (λ f. f ≡ disk_failed → self.new.spent ≡ true) }
        ensures cause { EngineCause (D.faults disk.old) (D.faults disk.new) result }
        ensures counted { AtMostOneMore (P.refusals pats.old) (P.refusals pats.new) }
    {
        let task = match compile(alloc, script.bytes(), pats) {
            Ok(task) => task,
            Err(fault) => return Err(compile_fault(fault)),
        };
        if has_task(self.store.tasks(), id) {
            return Err(EngineFault::Exists);
        }
        if TASK_LIMIT <= self.store.tasks().len() {
            return Err(EngineFault::TooManyTasks);
        }
        let next = self.plan_defined(alloc, id, enabled, task)?;
        let id = id.copy(alloc)?;
        let script = script.copy(alloc)?;
        let rec = Rec::Define {
            id,
            script,
            enabled,
        };
        self.add_change(alloc, disk, &rec, next)
    }

    /// Enables the task with this id: where it isn't enabled, a life of it begins. `NoTask` comes exactly
    /// where no task has the id, and `NotStore`, with the place of the record that defined it, only where a
    /// pattern of its script was refused in this call; these change nothing. All else is as `define` says.
    pub fn enable<D: Disk, P: Patterns>(
        &mut self,
        alloc: Global,
        disk: &mut D,
        id: &Text,
        pats: &mut P,
    ) -> Result<(), EngineFault>
        requires unspent { self.old.spent ≡ false }
        ensures unspent { OnOk result (self.new.spent ≡ false) }
        ensures enabled { IsTrue D.tells → (rs : List Rec)
            → IsEngine N.Node N.planned rs (D.seen disk.old) (D.may_leave disk.old) self.old
            → OnOk result (IsEngine N.Node N.planned (rs ++ Rec.Enable id.now ∷ [])
            (D.seen disk.new) (D.may_leave disk.new) self.new) }
        ensures any_moment { IsTrue D.tells → (rs : List Rec)
            → IsEngine N.Node N.planned rs (D.seen disk.old) (D.may_leave disk.old) self.old
            → Moments D.moment D.may_leave D.left_since disk.old disk.new
            (stands_full_before_or_after N.Node N.planned rs (Rec.Enable id.now)) }
        ensures stored { OnOk result (self.new.stored ≡ []) }
        ensures there { OnOk result (has_task id.now self.old.store.kept.tasks ≡ true) }
        ensures why { IfErr result
            (IsWhyNoneEnabled (P.refusals pats.old) (P.refusals pats.new) (P.refused pats.new)
            self.old.store.log.part id.now self.old.store.kept.tasks) }
        ensures still { IfErr result (λ f. IsRefusal f
            → (self.new ≡ self.old) × (disk.new ≡ disk.old)) }
        ensures quiet { IfErr result (λ f. self.new.spent ≡ false
            → (self.new ≡ self.old) × (disk.new ≡ disk.old)) }
        ensures spends { IfErr result (λ f. f ≡ disk_failed → self.new.spent ≡ true) }
        ensures cause { EngineCause (D.faults disk.old) (D.faults disk.new) result }
        ensures counted { AtMostOneMore (P.refusals pats.old) (P.refusals pats.new) }
    {
        let Some(place) = find_task(self.store.tasks(), id) else {
            return Err(EngineFault::NoTask);
        };
        let next = self.plan_enabled(alloc, place, pats)?;
        let id = id.copy(alloc)?;
        self.add_change(alloc, disk, &Rec::Enable { id }, next)
    }

    /// Deletes the task with this id, or disables it: where it is enabled, its life ends.
    fn end_task<D: Disk>(
        &mut self,
        alloc: Global,
        disk: &mut D,
        id: &Text,
        deletes: bool,
    ) -> Result<(), EngineFault>
        requires unspent { self.old.spent ≡ false }
        ensures unspent { OnOk result (self.new.spent ≡ false) }
        ensures ended { IsTrue D.tells → (rs : List Rec)
            → IsEngine N.Node N.planned rs (D.seen disk.old) (D.may_leave disk.old) self.old
            → OnOk result (IsEngine N.Node N.planned (rs ++ ending deletes id.now ∷ [])
            (D.seen disk.new) (D.may_leave disk.new) self.new) }
        ensures any_moment { IsTrue D.tells → (rs : List Rec)
            → IsEngine N.Node N.planned rs (D.seen disk.old) (D.may_leave disk.old) self.old
            → Moments D.moment D.may_leave D.left_since disk.old disk.new
            (stands_full_before_or_after N.Node N.planned rs (ending deletes id.now)) }
        ensures stored { OnOk result (self.new.stored ≡ []) }
        ensures there { OnOk result (has_task id.now self.old.store.kept.tasks ≡ true) }
        ensures why { IfErr result (IsWhyNoneEnded id.now self.old.store.kept.tasks) }
        ensures still { IfErr result (λ f. IsRefusal f
            → (self.new ≡ self.old) × (disk.new ≡ disk.old)) }
        ensures quiet { IfErr result (λ f. self.new.spent ≡ false
            → (self.new ≡ self.old) × (disk.new ≡ disk.old)) }
        ensures spends { IfErr result (λ f. f ≡ disk_failed → self.new.spent ≡ true) }
        ensures cause { EngineCause (D.faults disk.old) (D.faults disk.new) result }
    {
        if !has_task(self.store.tasks(), id) {
            return Err(EngineFault::NoTask);
        }
        let id = id.copy(alloc)?;
        let rec = ending(id, deletes);
        self.add_change(alloc, disk, &rec, None)
    }

    /// Disables the task with this id: where it is enabled, its life ends. `NoTask` comes exactly where no
    /// task has the id, and changes nothing. All else is as `define` says.
    pub fn disable<D: Disk>(
        &mut self,
        alloc: Global,
        disk: &mut D,
        id: &Text,
    ) -> Result<(), EngineFault>
        requires unspent { self.old.spent ≡ false }
        ensures unspent { OnOk result (self.new.spent ≡ false) }
        ensures disabled { IsTrue D.tells → (rs : List Rec)
            → IsEngine N.Node N.planned rs (D.seen disk.old) (D.may_leave disk.old) self.old
            → OnOk result (IsEngine N.Node N.planned (rs ++ Rec.Disable id.now ∷ [])
            (D.seen disk.new) (D.may_leave disk.new) self.new) }
        ensures any_moment { IsTrue D.tells → (rs : List Rec)
            → IsEngine N.Node N.planned rs (D.seen disk.old) (D.may_leave disk.old) self.old
            → Moments D.moment D.may_leave D.left_since disk.old disk.new
            (stands_full_before_or_after N.Node N.planned rs (Rec.Disable id.now)) }
        ensures stored { OnOk result (self.new.stored ≡ []) }
        ensures there { OnOk result (has_task id.now self.old.store.kept.tasks ≡ true) }
        ensures why { IfErr result (IsWhyNoneEnded id.now self.old.store.kept.tasks) }
        ensures still { IfErr result (λ f. IsRefusal f
            → (self.new ≡ self.old) × (disk.new ≡ disk.old)) }
        ensures quiet { IfErr result (λ f. self.new.spent ≡ false
            → (self.new ≡ self.old) × (disk.new ≡ disk.old)) }
        ensures spends { IfErr result (λ f. f ≡ disk_failed → self.new.spent ≡ true) }
        ensures cause { EngineCause (D.faults disk.old) (D.faults disk.new) result }
    {
        self.end_task(alloc, disk, id, false)
    }

    /// Deletes the task with this id: where it is enabled, its life ends. `NoTask` comes exactly where no task
    /// has the id, and changes nothing. All else is as `define` says.
    pub fn delete<D: Disk>(
        &mut self,
        alloc: Global,
        disk: &mut D,
        id: &Text,
    ) -> Result<(), EngineFault>
        requires unspent { self.old.spent ≡ false }
        ensures unspent { OnOk result (self.new.spent ≡ false) }
        ensures deleted { IsTrue D.tells → (rs : List Rec)
            → IsEngine N.Node N.planned rs (D.seen disk.old) (D.may_leave disk.old) self.old
            → OnOk result (IsEngine N.Node N.planned (rs ++ Rec.Delete id.now ∷ [])
            (D.seen disk.new) (D.may_leave disk.new) self.new) }
        ensures any_moment { IsTrue D.tells → (rs : List Rec)
            → IsEngine N.Node N.planned rs (D.seen disk.old) (D.may_leave disk.old) self.old
            → Moments D.moment D.may_leave D.left_since disk.old disk.new
            (stands_full_before_or_after N.Node N.planned rs (Rec.Delete id.now)) }
        ensures stored { OnOk result (self.new.stored ≡ []) }
        ensures there { OnOk result (has_task id.now self.old.store.kept.tasks ≡ true) }
        ensures why { IfErr result (IsWhyNoneEnded id.now self.old.store.kept.tasks) }
        ensures still { IfErr result (λ f. IsRefusal f
            → (self.new ≡ self.old) × (disk.new ≡ disk.old)) }
        ensures quiet { IfErr result (λ f. self.new.spent ≡ false
            → (self.new ≡ self.old) × (disk.new ≡ disk.old)) }
        ensures spends { IfErr result (λ f. f ≡ disk_failed → self.new.spent ≡ true) }
        ensures cause { EngineCause (D.faults disk.old) (D.faults disk.new) result }
    {
        self.end_task(alloc, disk, id, true)
    }
}
