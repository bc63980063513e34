//! Lives that run through a net.

use crate::epochs::{run_held, run_shared};
use crate::moving::Way;
use crate::numbering::NumberingNode;
use crate::trail::Trail;
use edge_queue::CAPACITY_LIMIT;
use flow_core::Net;
use kap_base::{NoMemory, Point, Shared, Stamp};
use kap_io::Gate;
use node_core::{Effects, Node};
use std::alloc::Global;
use std::marker::Model;
use std::snapshot::Snapshot;
use std::thread::Threads;
use task_run::{Counts, LifePlan};

/// Lives that run through a net, one epoch of points after the other. Contracts see the nodes of each life,
/// the points of all epochs, how many messages each edge has room for, and whether memory ran out. It keeps
/// the states of the nodes, and no points once their epoch is done.
#[derive(Drop)]
pub struct NetRun<N: Node> {
    net: Net<N>,
    /// How many points were loaded.
    given: u64,
    spent: bool,
    // What was planned of the lives, the room of edges, and the points: clauses alone see them.
    plans: Snapshot<Vec<LifePlan<N>>>,
    capacity: Snapshot<u32>,
    trail: Trail,
}

impl<N: Node> Model for NetRun<N> {
    ghost use Rattle.std.specs.Coded.{codes};
    ghost use Rattle.std.specs.Prelude.{◌≡◌, false, map};
    ghost use Rattle.std.specs.List.{AllByRecursion as Each};
    ghost use Rattle.kap_base.specs.Maps.{key_map_code};
    ghost use Rattle.task_run.specs.Plans.{graph_of};
    ghost use Rattle.flow_core.specs.Rooms.{HasRoomIn};
    ghost use Rattle.net_run.specs.Epochs.{Stands};
    ghost use Rattle.net_run.specs.Runs.{NetRunValue};
    ghost use Rattle.net_run.specs.Trails.{points_of};

    ghost Value = { NetRunValue N.Spec };

    ghost coded = { Prim.hlevel (codes, key_map_code) };

    ghost view = { λ r. record {
      lives = map (graph_of N.spec) r.plans.value.items;
      points = points_of r.trail;
      capacity = r.capacity.value;
      spent = r.spent;
    } };

    ghost invariant = { λ r. r.spent ≡ false
        → (r.given ≡ r.net.last.0)
        × Stands N.Node (map (graph_of N.spec) r.plans.value.items) (points_of r.trail) r.net
        × Each (HasRoomIn r.capacity.value) r.net.lives };
}

impl<N: NumberingNode + Send> NetRun<N> {
    ghost use Rattle.std.specs.Prelude.{◌≡◌, ◌++◌, ◌<◌, ◌≤◌, false, [], IfOk, IsFalse, IsTrue, OnOk, is_err, length, map};
    ghost use Rattle.std.specs.List.{AllByRecursion as Each};
    ghost use Rattle.task_run.specs.Courses.{from_first, later_effects};
    ghost use Rattle.task_run.specs.Lives.{dropped_of, effects_of};
    ghost use Rattle.task_run.specs.Plans.{AreFirstStates, graph_of};
    ghost use Rattle.flow_core.specs.Carried.{HasCarried};
    ghost use Rattle.flow_core.specs.Gathering.{LivesRise};
    ghost use Rattle.flow_core.specs.Making.{HasFewParents};
    ghost use Rattle.flow_core.specs.Rooms.{HasRoomIn};

    /// A net of lives whose nodes are in their first states, before the first point. Their numbers rise from
    /// 1 on, and their edges have room for just `capacity` messages, 1 to 65,536.
    pub fn new(alloc: Global, plans: Vec<LifePlan<N>>, capacity: u32) -> Result<NetRun<N>, NoMemory>
        requires first { AreFirstStates N.spec N.state N.first plans.items }
        requires rise { LivesRise N.life N.number 1 (map (graph_of N.spec) plans.items) }
        requires few { Each HasFewParents plans.items }
        requires some { 0 < capacity }
        requires limit { capacity ≤ CAPACITY_LIMIT }
        ensures { IfOk result (λ run. run
            ≡ record {
              lives = map (graph_of N.spec) plans.items;
              points = [];
              capacity = capacity;
              spent = false;
            }) }
    {
        let planned = Snapshot::of(&plans);
        Ok(NetRun {
            net: Net::make(alloc, plans, capacity)?,
            given: 0,
            spent: false,
            plans: planned,
            capacity: Snapshot::of(&capacity),
            trail: Trail::Start,
        })
    }

    /// Whether memory ran out in a call of `run`. Then the run can't go on.
    pub fn spent(&self) -> bool
        ensures { result ≡ self.now.spent }
    {
        self.spent
    }

    /// Loads an epoch of points into the net, has it come to rest in this way, and answers what the nodes do
    /// for them. A point's stamp is its place among all points so far, from 1 on. The effects of all points,
    /// in their order, go on by these. Where the points are to be held they are given back, so that whoever
    /// reads the next ones may use their memory; a node that changes a point then copies it. Else none are
    /// given back. After NoMemory the run is spent.
    pub fn run<R: Threads + Sync, G: Gate + Sync>(
        &mut self,
        alloc: Global,
        points: Vec<Shared<Point>>,
        hold: bool,
        way: &Way<'_, R, G>,
    ) -> Result<(Effects, Vec<Shared<Point>>), NoMemory>
        requires { self.old.spent ≡ false }
        ensures lives { OnOk result (self.new.lives ≡ self.old.lives) }
        ensures points { OnOk result (self.new.points ≡ self.old.points ++ points.items) }
        ensures capacity { OnOk result (self.new.capacity ≡ self.old.capacity) }
        ensures spent { self.new.spent ≡ is_err result }
        ensures effects { IfOk result (λ ran.
            effects_of N.answer self.old.lives (self.old.points ++ points.items)
            ≡ effects_of N.answer self.old.lives self.old.points ++ ran.0) }
        ensures held { IfOk result (λ ran. IsTrue hold → ran.1.items ≡ points.items) }
        ensures none { IfOk result (λ ran. IsFalse hold → ran.1.items ≡ []) }
    {
        self.spent = true;
        let Some(upto) = self.given.checked_add(points.len() as u64) else {
            return Err(NoMemory);
        };
        let trail = Trail::More(Snapshot::of(&self.trail), Snapshot::of(&points));
        let ran = run_held(alloc, &mut self.net, points, hold, Stamp(upto), way)?;
        self.trail = trail;
        self.given = upto;
        self.spent = false;
        Ok(ran)
    }

    /// How many points were loaded.
    pub fn given(&self) -> u64
        requires { self.now.spent ≡ false }
        ensures { result ≡ length self.now.points }
    {
        self.given
    }

    /// Does the same with points that stay the caller's, so that other runs may have them too, and answers
    /// just what the nodes do for them: the effects with the new stamps, in the order of all. After NoMemory
    /// the run is spent.
    pub fn run_on<R: Threads + Sync, G: Gate + Sync>(
        &mut self,
        alloc: Global,
        points: &Vec<Shared<Point>>,
        way: &Way<'_, R, G>,
    ) -> Result<Effects, NoMemory>
        requires { self.old.spent ≡ false }
        ensures lives { OnOk result (self.new.lives ≡ self.old.lives) }
        ensures points { OnOk result (self.new.points ≡ self.old.points ++ points.now.items) }
        ensures capacity { OnOk result (self.new.capacity ≡ self.old.capacity) }
        ensures spent { self.new.spent ≡ is_err result }
        ensures effects { IfOk result (λ effects. effects
            ≡ later_effects N.answer (length self.old.points) (length points.now.items)
            (from_first (self.old.points ++ points.now.items) self.old.lives)) }
    {
        self.spent = true;
        let count = points.len() as u64;
        let Some(upto) = self.given.checked_add(count) else {
            return Err(NoMemory);
        };
        let trail = Trail::More(Snapshot::of(&self.trail), Snapshot::of(points));
        let effects = run_shared(alloc, &mut self.net, points.as_slice(), Stamp(upto), way)?;
        self.trail = trail;
        self.given = upto;
        self.spent = false;
        Ok(effects)
    }

    /// How many inputs each node of each life dropped and counted, life by life and node by node.
    pub fn dropped(&self, alloc: Global) -> Result<Counts, NoMemory>
        requires { self.now.spent ≡ false }
        ensures { IfOk result (λ counts.
            counts ≡ dropped_of N.answer self.now.lives self.now.points) }
    {
        self.net.counts(alloc)
    }

    /// The net itself. It is at rest, its lives are those of the run, and over all epochs each of its edges
    /// has carried, barriers aside, what its parent gives out for all points. It takes no memory.
    pub fn into_net(self) -> Net<N>
        requires { self.spent ≡ false }
        ensures carried { HasCarried N.Node self.lives self.points result }
        ensures room { Each (HasRoomIn self.capacity) result.lives }
    {
        let NetRun { net, .. } = self;
        net
    }
}
