//! What a run of nodes does on points, as text.

ghost use Rattle.std.specs.Prelude.{◌≡◌, ◌<◌, ◌≤◌, false, [], ◌++◌, None, map, max, IfOk, IfSome, OnOk, length};
ghost use Rattle.std.specs.List.{AllByRecursion as Each, sum_by};
ghost use Rattle.net_run.specs.declared.TheConstants.{EPOCH_LIMIT};
ghost use Rattle.edge_queue.specs.declared.TheConstants.{CAPACITY_LIMIT};
ghost use Rattle.effect_text.specs.Lines.{events_of};
ghost use Rattle.flow_core.specs.Gathering.{LivesRise};
ghost use Rattle.flow_core.specs.Making.{HasFewParents};
ghost use Rattle.task_run.specs.Lives.{effects_of};
ghost use Rattle.task_run.specs.Plans.{AreFirstStates, graph_of};
ghost use Rattle.topic_core.specs.Topics.{StandsFor};
ghost use Rattle.kap_server.specs.Epochs.{IsAhead};
ghost use Rattle.kap_server.specs.Paces.{Paces};
ghost use Rattle.kap_server.specs.Replaying.{AddsText};
ghost use Rattle.kap_server.specs.Runs.{run_rest, run_text};

use crate::parts::{Parts, Ran};
use crate::reading::EpochReader;
use edge_queue::CAPACITY_LIMIT;
use effect_text::{Printed, TaskNames, put_dropped, put_effects, put_printed};
use kap_base::{Bytes, NoMemory, Point, Shared, What};
use kap_io::Gate;
use net_run::{EPOCH_LIMIT, NumberingNode, Pace, Way};
use node_core::{Effects, Node};
use std::alloc::Global;
use std::thread::Threads;
use task_run::LifePlan;
use topic_core::Topics;

/// A run, and the topics of the events in it.
#[derive(Drop)]
pub(crate) struct Telling<N: Node> {
    pub(crate) run: Parts<N>,
    pub(crate) topics: Topics,
    /// Whether the points of an epoch are held until it is told.
    pub(crate) hold: bool,
    /// How many points the next epoch may have.
    pub(crate) pace: Pace,
}

/// The point that an effect tells of, if it does.
fn logged_point(what: What) -> Option<Shared<Point>> {
    match what {
        What::Line(point) => Some(point),
        What::Event(_event) => None,
    }
}

/// Adds the point that an effect tells of, if it does, where there are fewer than `EPOCH_LIMIT`; else, or
/// where memory is short, it is let go.
fn add_point(points: &mut Vec<Shared<Point>>, what: What)
    requires { length points.old.items ≤ EPOCH_LIMIT }
    ensures { length points.new.items ≤ EPOCH_LIMIT }
{
    if points.len() < EPOCH_LIMIT {
        if let Some(point) = logged_point(what) {
            let _added = points.push(point);
        }
    }
}

/// As many of the points that the effects tell of as an epoch has at most.
fn logged_points(alloc: Global, effects: Effects) -> Vec<Shared<Point>>
    ensures { length result.items ≤ EPOCH_LIMIT }
{
    let mut points = Vec::new(alloc);
    'taking: for effect in effects.into_items() {
        add_point(&mut points, effect.what);
    }
    points
}

/// The points that were held; where none were, some of those that the effects tell of. Nobody needs them any
/// more.
fn spent_points(
    alloc: Global,
    effects: Effects,
    held: Vec<Shared<Point>>,
    hold: bool,
) -> Vec<Shared<Point>>
    ensures { length result.items ≤ max (length held.items) EPOCH_LIMIT }
{
    if hold {
        held
    } else {
        logged_points(alloc, effects)
    }
}

/// How many effects parts tell in all, None where that isn't below 2^64.
fn count_told(told: &[Printed]) -> Option<usize>
    ensures { IfSome result (λ count. count ≡ sum_by (λ pieces. length pieces) told.now) }
{
    let mut count: usize = 0;
    'counting: for part in told {
        count = count.checked_add(part.len())?;
    }
    Some(count)
}

impl<N: NumberingNode + Send> Telling<N> {
    /// Before the first point. Each edge has room for so many messages, and the lives run in so many parts.
    /// Points of an epoch may be held until it is told; of several parts they always are.
    pub(crate) fn new(
        alloc: Global,
        capacity: u32,
        hold: bool,
        parts: usize,
        plans: Vec<LifePlan<N>>,
    ) -> Result<Telling<N>, NoMemory>
        requires first { AreFirstStates N.spec N.state N.first plans.items }
        requires rise { LivesRise N.life N.number 1 (map (graph_of N.spec) plans.items) }
        requires few { Each HasFewParents plans.items }
        requires some { 0 < capacity }
        requires limit { capacity ≤ CAPACITY_LIMIT }
        requires parts { 0 < parts }
        ensures run { IfOk result (λ t. t.run
            ≡ record {
              lives = map (graph_of N.spec) plans.items;
              points = [];
              capacity = capacity;
              spent = false;
            }) }
        ensures topics { IfOk result (λ t. StandsFor [] t.topics) }
    {
        Ok(Telling {
            run: Parts::new(alloc, plans, capacity, parts)?,
            topics: Topics::new(alloc),
            hold,
            pace: Pace::new(),
        })
    }

    /// Runs the nodes on the next points in this way, and appends the text of what they do. Where several
    /// parts run, the next epoch is read ahead meanwhile. It gives back points that nobody needs any more.
    /// After NoMemory the run can't go on.
    pub(crate) fn tell<R: Threads + Sync, G: Gate + Sync>(
        &mut self,
        alloc: Global,
        names: &[TaskNames],
        points: Vec<Shared<Point>>,
        way: &Way<'_, R, G>,
        reading: &mut EpochReader,
        text: &mut Bytes,
    ) -> Result<Vec<Shared<Point>>, NoMemory>
        requires spent { self.old.run.spent ≡ false }
        requires none { reading.old.ahead ≡ None }
        requires few { length points.items ≤ EPOCH_LIMIT }
        requires topics { StandsFor
            (events_of (effects_of N.answer
            self.old.run.lives self.old.run.points))
            self.old.topics }
        ensures ahead { OnOk result
            (IsAhead reading.old.reader reading.new.reader reading.new.ahead) }
        ensures spent { OnOk result (self.new.run.spent ≡ false) }
        ensures lives { OnOk result
            (self.new.run.lives ≡ self.old.run.lives) }
        ensures points { OnOk result (self.new.run.points
            ≡ self.old.run.points ++ points.items) }
        ensures topics { OnOk result (StandsFor
            (events_of (effects_of N.answer
            self.new.run.lives self.new.run.points))
            self.new.topics) }
        ensures text { OnOk result (AddsText
            (run_text N.answer names.now self.old.run.lives)
            self.old.run.points points.items text.old text.new) }
        ensures pace { OnOk result (Paces N.answer self.old.run.lives
            self.old.run.points points.items text.old text.new
            self.old.pace.limit self.new.pace.limit) }
    {
        if points.is_empty() {
            return Ok(points);
        }
        let count = points.len();
        let due = text.len();
        let from = self.run.given();
        let limit = self.pace.limit();
        match self
            .run
            .run(alloc, names, points, self.hold, way, reading, limit)?
        {
            Ran::Whole(effects, left) => {
                put_effects(alloc, names, &mut self.topics, effects.as_slice(), text)?;
                self.pace
                    .follow(count, effects.len(), text.len().saturating_sub(due));
                Ok(spent_points(alloc, effects, left, self.hold))
            }
            Ran::InParts(mut told, left) => {
                let Some(effects) = count_told(told.as_slice()) else {
                    return Err(NoMemory);
                };
                let parts = told.as_mut_slice();
                put_printed(alloc, &mut self.topics, parts, from, count, text)?;
                self.pace
                    .follow(count, effects, text.len().saturating_sub(due));
                Ok(left)
            }
        }
    }

    /// Appends the lines of what the nodes dropped, where they are wanted.
    pub(crate) fn put_counts(
        &self,
        alloc: Global,
        counts: bool,
        names: &[TaskNames],
        text: &mut Bytes,
    ) -> Result<(), NoMemory>
        requires { self.now.run.spent ≡ false }
        ensures { OnOk result (text.new ≡ text.old ++ run_rest N.answer counts names.now
            self.now.run.lives self.now.run.points) }
    {
        if counts {
            let dropped = self.run.dropped(alloc)?;
            put_dropped(names, dropped.as_slice(), text)?;
        }
        Ok(())
    }
}
