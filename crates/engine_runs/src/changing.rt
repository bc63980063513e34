//! The lives of a store run on, behind all its points: more points come, a life begins, lives end, and what
//! they are is told as a snapshot.

use crate::planning::next_number;
use crate::runs::EngineRun;
use crate::turning::end_lives;
use barrier_snapshot::{capture, has_passed};
use effect_text::{TaskNames, tell_effects};
use kap_base::{Bytes, Duplicate, NoMemory, Point, Shared, Stamp, Text};
use kap_io::Gate;
use net_run::{EPOCH_LIMIT, NumberingNode, Way, run_epoch};
use node_core::Node;
use node_set::{ScriptNode, TaskPlan, plan_task};
use std::alloc::Global;
use std::marker::Model;
use std::thread::Threads;
use store_records::Life;
use task_run::LifePlan;
use tick_compile::{Task, scripts_have_one_answer};
use topic_core::Transition;

/// The life that begins next: its names, and a plan that has its nodes in their first states.
#[derive(Drop)]
pub struct NextLife<N: Node> {
    names: TaskNames,
    plan: LifePlan<N>,
}

impl<N: Node> Model for NextLife<N> {
    ghost use Rattle.std.specs.Coded.{codes};
    ghost use Rattle.effect_text.specs.declared.names.TaskNames.{TaskNames};
    ghost use Rattle.flow_core.specs.Making.{HasFewParents};
    ghost use Rattle.task_run.specs.Plans.{PlanValue};

    ghost Value = { TaskNames × PlanValue N };

    ghost coded = { Prim.hlevel codes };

    ghost view = { λ next. (next.names, next.plan) };

    ghost invariant = { λ next. HasFewParents next.plan };
}

impl<N: ScriptNode + NumberingNode + Send> EngineRun<N> {
    ghost use Rattle.std.specs.Prelude.{◌≡◌, ◌+◌, ◌++◌, ◌∷◌, ◌<◌, ◌≤◌, false, [], ℕ, IfOk, IfSome, List, None, OnOk, Some, is_err, length};
    ghost use Rattle.kap_base.specs.Points.{PointValue};
    ghost use Rattle.barrier_snapshot.specs.Snapshots.{IsSnapshot};
    ghost use Rattle.life_effects.specs.Effects.{LivesFit, open_courses};
    ghost use Rattle.store_records.specs.States.{AreStates};
    ghost use Rattle.store_records.specs.declared.task.Life.{Life};
    ghost use Rattle.task_run.specs.Plans.{IsPlan};
    ghost use Rattle.tick_compile.specs.declared.tasks.Task.{Task};
    ghost use Rattle.topic_core.specs.declared.transition.Transition.{Transition};
    ghost use Rattle.flow_core.specs.Nets.{HasStreamsCarried};
    ghost use Rattle.std.specs.List.{AllByRecursion as Each};
    ghost use Rattle.engine_runs.specs.Running.{HasRun, Tells};
    ghost use Rattle.engine_runs.specs.Scripts.{AreTasksOf, IsPlanned, IsTaskOf, graphs_from};

    /// Runs an epoch of points, at which no life begins or ends, and tells what they do: its text comes behind
    /// a text, and the transitions that it makes come behind others.
    fn tell_few<R: Threads + Sync, G: Gate + Sync>(
        &mut self,
        alloc: Global,
        points: &[Shared<Point>],
        way: &Way<'_, R, G>,
        text: &mut Bytes,
        told: &mut Vec<Transition>,
    ) -> Result<(), NoMemory>
        requires unspent { self.old.spent ≡ false }
        requires some { 0 < length points.now }
        ensures spent { self.new.spent ≡ is_err result }
        ensures runs { OnOk result ((lives : List Life) (tasks : List Task)
            (before : List PointValue) (more : ℕ)
            → HasRun N.Node N.planned lives tasks before (length points.now + more) self.old
            → HasRun N.Node N.planned lives tasks (before ++ points.now) more self.new) }
        ensures tells { OnOk result ((lives : List Life) (tasks : List Task)
            (before : List PointValue) (more : ℕ)
            → HasRun N.Node N.planned lives tasks before (length points.now + more) self.old
            → Tells N.Node N.planned lives tasks before points.now text.old text.new
            told.old.items told.new.items) }
        ensures names { self.new.names ≡ self.old.names }
        ensures streams { OnOk result (Each (HasStreamsCarried N.Node) self.new.net.lives) }
    {
        self.spent = true;
        let Some(upto) = self.points.checked_add(points.len() as u64) else {
            return Err(NoMemory);
        };
        let effects = run_epoch(alloc, &mut self.net, points, Stamp(upto), way)?;
        tell_effects(
            alloc,
            &self.names,
            &mut self.topics,
            effects.as_slice(),
            text,
            told,
        )?;
        self.points = upto;
        self.spent = false;
        Ok(())
    }

    /// Runs points behind those so far, at which no life begins or ends, in epochs of at most `EPOCH_LIMIT`,
    /// and tells what the lives do: the text comes behind a text, and the transitions that they make come
    /// behind others. At Ok, where there were some, each edge has carried its stream of the last epoch.
    pub fn run_on<R: Threads + Sync, G: Gate + Sync>(
        &mut self,
        alloc: Global,
        points: &[Shared<Point>],
        way: &Way<'_, R, G>,
        text: &mut Bytes,
        told: &mut Vec<Transition>,
    ) -> Result<(), NoMemory>
        requires { self.old.spent ≡ false }
        ensures spent { self.new.spent ≡ is_err result }
        ensures runs { OnOk result ((lives : List Life) (tasks : List Task)
            (before : List PointValue) (more : ℕ)
            → HasRun N.Node N.planned lives tasks before (length points.now + more) self.old
            → HasRun N.Node N.planned lives tasks (before ++ points.now) more self.new) }
        ensures tells { OnOk result ((lives : List Life) (tasks : List Task)
            (before : List PointValue) (more : ℕ)
            → HasRun N.Node N.planned lives tasks before (length points.now + more) self.old
            → Tells N.Node N.planned lives tasks before points.now text.old text.new
            told.old.items told.new.items) }
        ensures names { self.new.names ≡ self.old.names }
        ensures streams { OnOk result (0 < length points.now
            → Each (HasStreamsCarried N.Node) self.new.net.lives) }
    {
        let mut rest = points;
        'running: while 0 < rest.len() {
            let count = rest.len().min(EPOCH_LIMIT);
            let (piece, behind) = rest.split_at(count);
            self.tell_few(alloc, piece, way, text, told)?;
            rest = behind;
        }
        Ok(())
    }

    /// The life of the task with this id that begins next, by the task of its script.
    pub fn plan_next(&self, alloc: Global, id: &Text, task: Task) -> Result<NextLife<N>, NoMemory>
        ensures planned { IfOk result (λ next. (life : Life) → life.task ≡ id.now
            → IsTaskOf life task → IsPlanned N.planned N.spec N.state N.first
            (length self.now.names + 1) life next) }
        ensures plan { IfOk result (λ next. IsPlan N.spec N.ports N.life N.number next.1) }
    {
        let Some(number) = next_number(self.names.len()) else {
            return Err(NoMemory);
        };
        let TaskPlan { plan, names } = plan_task(alloc, id, number, task.graph)?;
        let id = id.copy(alloc)?;
        Ok(NextLife {
            names: TaskNames { id, nodes: names },
            plan,
        })
    }

    /// A life begins, behind the points so far and the lives so far: the one that was planned for it.
    pub fn begin_next(&mut self, alloc: Global, next: NextLife<N>) -> Result<(), NoMemory>
        requires { self.old.spent ≡ false }
        ensures spent { self.new.spent ≡ is_err result }
        ensures runs { OnOk result ((lives : List Life) (tasks : List Task)
            (before : List PointValue) (life : Life) (task : Task)
            → AreTasksOf lives tasks → IsTaskOf life task → life.first ≡ length before + 1 → life.last ≡ None
            → IsPlanned N.planned N.spec N.state N.first (length self.old.names + 1) life next
            → IsPlan N.spec N.ports N.life N.number next.1
            → length self.old.names ≡ length lives → LivesFit (length before) lives
            → HasRun N.Node N.planned lives tasks before 1 self.old
            → HasRun N.Node N.planned (lives ++ life ∷ []) (tasks ++ task ∷ []) before 1 self.new) }
        ensures names { OnOk result (length self.new.names ≡ length self.old.names + 1) }
    {
        scripts_have_one_answer();
        self.spent = true;
        let NextLife { names, plan } = next;
        self.net.begin(alloc, plan, self.capacity)?;
        self.names.push(names)?;
        self.spent = false;
        Ok(())
    }

    /// Those lives end that have ended behind the points so far. It takes no memory.
    pub fn end_lives(&mut self, lives: &[Life])
        requires { self.old.spent ≡ false }
        ensures unspent { self.new.spent ≡ false }
        ensures runs { (tasks : List Task) (before : List PointValue)
            → length self.old.names ≡ length lives.now
            → HasRun N.Node N.planned lives.now tasks before 0 self.old
            → HasRun N.Node N.planned lives.now tasks before 1 self.new }
        ensures names { self.new.names ≡ self.old.names }
    {
        end_lives(&mut self.net, lives, self.points);
    }

    /// The states of the nodes of the lives that run, as a snapshot has them. `None` comes only where some
    /// cell hasn't passed the net's last barrier, which is so of no lives that have run on the points of a
    /// store.
    pub fn snapshot(&self, alloc: Global) -> Result<Option<Bytes>, NoMemory>
        requires { self.now.spent ≡ false }
        ensures form { IfOk result (λ found. IfSome found AreStates) }
        ensures states { IfOk result (λ found. (lives : List Life) (tasks : List Task)
            (before : List PointValue) → LivesFit (length before) lives
            → HasRun N.Node N.planned lives tasks before 1 self.now
            → IfSome found (IsSnapshot N.Node
            (open_courses lives (graphs_from N.planned 1 lives tasks) before))) }
        ensures some { OnOk result ((lives : List Life) (tasks : List Task)
            (before : List PointValue) → LivesFit (length before) lives
            → HasRun N.Node N.planned lives tasks before 1 self.now
            → result ≡ Ok None → ⊥) }
    {
        let last = Stamp(self.points);
        if !has_passed(&self.net, last) {
            return Ok(None);
        }
        Ok(Some(capture(alloc, &self.net, last)?))
    }
}
