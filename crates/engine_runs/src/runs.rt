//! The lives of a store run on points.

use crate::fault::RunFault;
use crate::gathering::accept_effects;
use crate::restoring::{plan_open, restore_net};
use crate::spans::points_before;
use crate::turning::{begin_lives, end_lives};
use edge_queue::CAPACITY_LIMIT;
use effect_text::TaskNames;
use flow_core::Net;
use kap_base::{NoMemory, Point, Shared, Stamp};
use kap_io::Gate;
use lambda_types::Patterns;
use net_run::{EPOCH_LIMIT, NumberingNode, Way, run_epoch};
use node_core::Node;
use node_set::ScriptNode;
use std::alloc::Global;
use std::marker::Model;
use std::thread::Threads;
use store_records::Life;
use topic_core::{Topics, Transition};

/// The lives of a store as they run: a net in which those of them are that are open, and the topics of all
/// their events. Contracts see these, the names of the lives that have begun, by their numbers, and how many
/// points there were. After a call that failed in the middle it can't go on.
#[derive(Drop)]
pub struct EngineRun<N: Node> {
    pub(crate) net: Net<N>,
    pub(crate) topics: Topics,
    pub(crate) names: Vec<TaskNames>,
    pub(crate) points: u64,
    pub(crate) capacity: u32,
    pub(crate) spent: bool,
}

impl<N: Node> Model for EngineRun<N> {
    ghost use Rattle.std.specs.Coded.{codes};
    ghost use Rattle.std.specs.Prelude.{◌≡◌, false};
    ghost use Rattle.flow_cells.specs.contracts.parts.Gathered as gathered_effects;
    ghost use Rattle.kap_base.specs.Maps.{key_map_code};
    ghost use Rattle.engine_runs.specs.Running.{CanGoOn, RunValue};

    ghost Value = { RunValue N };

    ghost coded = { Prim.hlevel (codes, key_map_code, gathered_effects.the_row.coded) };

    ghost view = { λ r. record {
      net = r.net;
      topics = r.topics;
      names = r.names.items;
      points = r.points;
      capacity = r.capacity;
      spent = r.spent;
    } };

    ghost invariant = { λ r. r.spent ≡ false → CanGoOn (record {
      net = r.net;
      topics = r.topics;
      names = r.names.items;
      points = r.points;
      capacity = r.capacity;
      spent = r.spent;
    }) };
}

impl<N: ScriptNode + NumberingNode + Send> EngineRun<N> {
    ghost use Rattle.std.specs.Prelude.{◌≡◌, ◌≢◌, ◌+◌, ◌++◌, ◌<◌, ◌≤◌, true, false, [], Bool, Err, IfErr, IfOk, List, OnOk, is_err, length, map};
    ghost use Rattle.std.specs.List.{AllByRecursion as Each};
    ghost use Rattle.kap_base.specs.Points.{PointValue};
    ghost use Rattle.lambda_types.specs.Builds.{AtMostOneMore};
    ghost use Rattle.barrier_snapshot.specs.Captures.{IsCapture};
    ghost use Rattle.barrier_snapshot.specs.Snapshots.{IsSnapshot};
    ghost use Rattle.edge_queue.specs.declared.TheConstants.{CAPACITY_LIMIT};
    ghost use Rattle.life_effects.specs.Times.{times_fit};
    ghost use Rattle.net_run.specs.declared.TheConstants.{EPOCH_LIMIT};
    ghost use Rattle.store_records.specs.Orders.{AreValidLives};
    ghost use Rattle.store_records.specs.declared.task.Life.{Life};
    ghost use Rattle.tick_compile.specs.declared.tasks.Task.{Task};
    ghost use Rattle.engine_runs.specs.Faults.{IsWhyOne};
    ghost use Rattle.topic_core.specs.Topics.{StandsFor, Trans, event_of};
    ghost use Rattle.engine_runs.specs.Running.{HasRun, courses_on, due_behind, life_events};
    ghost use Rattle.engine_runs.specs.Scripts.{AreTasksOf, graphs_from, node_specs};
    ghost use Rattle.engine_runs.specs.Spans.{FirstsRise, Spans, numbers_from, picked};

    /// Before the first point. Each edge of the net has room for just `capacity` messages, 1 to 65,536.
    pub fn new(alloc: Global, capacity: u32) -> EngineRun<N>
        requires some { 0 < capacity }
        requires limit { capacity ≤ CAPACITY_LIMIT }
        ensures unspent { result.spent ≡ false }
        ensures runs { (lives : List Life) (tasks : List Task)
            → Each (λ life. 0 < life.first) lives
            → HasRun N.Node N.planned lives tasks [] 0 result }
    {
        EngineRun {
            net: Net::new(alloc),
            topics: Topics::new(alloc),
            names: Vec::new(alloc),
            points: 0,
            capacity,
            spent: false,
        }
    }

    /// Ends the lives that have ended, and begins those that begin, behind the points so far.
    pub fn turn<P: Patterns>(
        &mut self,
        alloc: Global,
        lives: &[Life],
        pats: &mut P,
    ) -> Result<(), RunFault>
        requires unspent { self.old.spent ≡ false }
        requires valid { AreValidLives lives.now }
        ensures spent { self.new.spent ≡ is_err result }
        ensures runs { OnOk result ((tasks : List Task) (before : List PointValue)
            → AreTasksOf lives.now tasks → FirstsRise lives.now
            → HasRun N.Node N.planned lives.now tasks before 0 self.old
            → HasRun N.Node N.planned lives.now tasks before 1 self.new) }
        ensures topics { OnOk result (self.new.topics ≡ self.old.topics) }
        ensures all { OnOk result (Each (λ life. life.first ≤ self.old.points + 1) lives.now
            → length lives.now ≤ length self.new.names) }
        ensures why { IfErr result (IsWhyOne (P.refusals pats.old) (P.refusals pats.new)
            (P.refused pats.new) lives.now) }
        ensures kept { OnOk result (P.refusals pats.new ≡ P.refusals pats.old) }
        ensures counted { AtMostOneMore (P.refusals pats.old) (P.refusals pats.new) }
    {
        self.spent = true;
        end_lives(&mut self.net, lives, self.points);
        let begun = begin_lives(
            alloc,
            lives,
            self.points,
            self.capacity,
            &mut self.net,
            &mut self.names,
            pats,
        );
        if let Err(fault) = begun {
            return Err(fault);
        }
        self.spent = false;
        Ok(())
    }

    /// How many of so many points an epoch may have, within which no life begins or ends.
    fn epoch_len(&self, lives: &[Life], left: usize) -> usize
        requires unspent { self.now.spent ≡ false }
        ensures some { 0 < left → 0 < result }
        ensures within { result ≤ left }
        ensures few { result ≤ EPOCH_LIMIT }
        ensures runs { (tasks : List Task) (before : List PointValue) → FirstsRise lives.now
            → HasRun N.Node N.planned lives.now tasks before 1 self.now
            → HasRun N.Node N.planned lives.now tasks before result self.now }
    {
        let most = left.min(EPOCH_LIMIT);
        points_before(self.net.lives(), lives, self.names.len(), self.points, most)
    }

    /// Runs an epoch of points, within which no life begins or ends, and puts the transitions that they make
    /// behind others, but for those with the first `stored` numbers.
    fn run_few<R: Threads + Sync, G: Gate + Sync>(
        &mut self,
        alloc: Global,
        points: &[Shared<Point>],
        stored: u64,
        way: &Way<'_, R, G>,
        due: &mut Vec<Transition>,
    ) -> Result<(), NoMemory>
        requires unspent { self.old.spent ≡ false }
        requires some { 0 < length points.now }
        ensures spent { self.new.spent ≡ is_err result }
        ensures runs { OnOk result ((lives : List Life) (tasks : List Task)
            (before : List PointValue)
            → HasRun N.Node N.planned lives tasks before (length points.now) self.old
            → HasRun N.Node N.planned lives tasks (before ++ points.now) 0 self.new) }
        ensures due { OnOk result ((lives : List Life) (tasks : List Task)
            (before : List PointValue)
            → HasRun N.Node N.planned lives tasks before (length points.now) self.old
            → due.old.items ≡ due_behind N.Node N.planned lives tasks stored before
            → due.new.items
            ≡ due_behind N.Node N.planned lives tasks stored (before ++ points.now)) }
    {
        self.spent = true;
        let Some(upto) = self.points.checked_add(points.len() as u64) else {
            return Err(NoMemory);
        };
        let effects = run_epoch(alloc, &mut self.net, points, Stamp(upto), way)?;
        accept_effects(alloc, &mut self.topics, effects.as_slice(), stored, due)?;
        self.points = upto;
        self.spent = false;
        Ok(())
    }

    /// Runs points, in epochs of at most `EPOCH_LIMIT`, which end also where a life of these begins or ends,
    /// so that each runs on the points of its own stamps alone. The transitions that they make are put behind
    /// others, but for those with the first `stored` numbers.
    pub fn run<P: Patterns, R: Threads + Sync, G: Gate + Sync>(
        &mut self,
        alloc: Global,
        lives: &[Life],
        points: &[Shared<Point>],
        stored: u64,
        way: &Way<'_, R, G>,
        due: &mut Vec<Transition>,
        pats: &mut P,
    ) -> Result<(), RunFault>
        requires unspent { self.old.spent ≡ false }
        requires valid { AreValidLives lives.now }
        ensures spent { self.new.spent ≡ is_err result }
        ensures runs { OnOk result ((tasks : List Task) (before : List PointValue)
            → AreTasksOf lives.now tasks → FirstsRise lives.now
            → HasRun N.Node N.planned lives.now tasks before 0 self.old
            → HasRun N.Node N.planned lives.now tasks (before ++ points.now) 0 self.new) }
        ensures due { OnOk result ((tasks : List Task) (before : List PointValue)
            → AreTasksOf lives.now tasks → FirstsRise lives.now
            → HasRun N.Node N.planned lives.now tasks before 0 self.old
            → due.old.items ≡ due_behind N.Node N.planned lives.now tasks stored before
            → due.new.items
            ≡ due_behind N.Node N.planned lives.now tasks stored (before ++ points.now)) }
        ensures why { IfErr result (IsWhyOne (P.refusals pats.old) (P.refusals pats.new)
            (P.refused pats.new) lives.now) }
        ensures kept { OnOk result (P.refusals pats.new ≡ P.refusals pats.old) }
        ensures counted { AtMostOneMore (P.refusals pats.old) (P.refusals pats.new) }
    {
        let mut rest = points;
        'running: while 0 < rest.len() {
            if let Err(fault) = self.turn(alloc, lives, pats) {
                return Err(fault);
            }
            let count = self.epoch_len(lives, rest.len());
            let (piece, behind) = rest.split_at(count);
            self.run_few(alloc, piece, stored, way, due)?;
            rest = behind;
        }
        Ok(())
    }

    /// The lives with these numbers, which were open at a snapshot of so many points, run on in the states
    /// that it holds. The topics are those behind these points. `States` comes only where they are no states
    /// of the nodes of these lives.
    pub fn restore<P: Patterns>(
        alloc: Global,
        lives: &[Life],
        numbers: &[u32],
        points: u64,
        topics: Topics,
        states: &[u8],
        capacity: u32,
        pats: &mut P,
    ) -> Result<EngineRun<N>, RunFault>
        requires valid { AreValidLives lives.now }
        requires some { 0 < capacity }
        requires limit { capacity ≤ CAPACITY_LIMIT }
        ensures unspent { IfOk result (λ run. run.spent ≡ false) }
        ensures runs { IfOk result (λ run. (tasks : List Task) (before : List PointValue)
            (open_there : List Bool) → AreTasksOf lives.now tasks → points ≡ length before
            → Spans (length before) 0 open_there lives.now
            → numbers.now ≡ picked open_there (numbers_from 1 lives.now)
            → IsSnapshot N.Node
            (picked open_there (courses_on N.Node N.planned lives.now tasks before)) states.now
            → StandsFor (life_events N.Node N.planned lives.now tasks before) topics
            → times_fit (map event_of (Trans (life_events N.Node N.planned lives.now tasks before)))
            ≡ true
            → HasRun N.Node N.planned lives.now tasks before 0 run) }
        ensures fits { OnOk result ((tasks : List Task) (open_there : List Bool)
            → AreTasksOf lives.now tasks → numbers.now ≡ picked open_there (numbers_from 1 lives.now)
            → (held : List N.State) × IsCapture N.fits N.spell
            (node_specs (picked open_there (graphs_from N.planned 1 lives.now tasks))) held states.now) }
        ensures states { result ≡ Err RunFault.States → (tasks : List Task)
            (open_there : List Bool) (held : List N.State) → AreTasksOf lives.now tasks
            → numbers.now ≡ picked open_there (numbers_from 1 lives.now)
            → IsCapture N.fits N.spell
            (node_specs (picked open_there (graphs_from N.planned 1 lives.now tasks))) held states.now
            → ⊥ }
        ensures why { IfErr result (λ f. f ≢ RunFault.States → IsWhyOne (P.refusals pats.old)
            (P.refusals pats.new) (P.refused pats.new) lives.now f) }
        ensures kept { OnOk result (P.refusals pats.new ≡ P.refusals pats.old) }
        ensures counted { AtMostOneMore (P.refusals pats.old) (P.refusals pats.new) }
    {
        let mut names = Vec::new(alloc);
        let mut plans = Vec::new(alloc);
        if let Err(fault) = plan_open(alloc, lives, numbers, &mut names, &mut plans, pats) {
            return Err(fault);
        }
        let net = match restore_net(alloc, plans, capacity, states, Stamp(points)) {
            Ok(net) => net,
            Err(fault) => return Err(fault),
        };
        Ok(EngineRun {
            net,
            topics,
            names,
            points,
            capacity,
            spent: false,
        })
    }

    /// The net of the lives that run.
    pub fn net(&self) -> &Net<N>
        ensures { result.now ≡ self.now.net }
    {
        &self.net
    }

    /// The topics of all events so far.
    pub fn topics(&self) -> &Topics
        ensures { result.now ≡ self.now.topics }
    {
        &self.topics
    }

    /// How many points there were.
    pub fn points(&self) -> u64
        ensures { result ≡ self.now.points }
    {
        self.points
    }

    /// Whether a call on it failed in the middle.
    pub fn is_spent(&self) -> bool
        ensures { result ≡ self.now.spent }
    {
        self.spent
    }

    /// The net itself. It takes no memory.
    pub fn into_net(self) -> Net<N>
        ensures { result ≡ self.net }
    {
        let EngineRun { net, .. } = self;
        net
    }
}
