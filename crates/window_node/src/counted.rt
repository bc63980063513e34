//! Windows by the number of points.

ghost use Rattle.std.specs.Prelude.{◌≡◌, ◌+◌, ◌-◌, ◌++◌, ◌∷◌, [], ◌<◌, IfOk};
ghost use Rattle.window_node.specs.Batches.{batch_at, last};
ghost use Rattle.window_node.specs.Counted.{counted_kept, counted_says, counted_step, is_due, kept_count, to_come};
ghost use Rattle.window_node.specs.CountedLaws.{counted_goes_on};
ghost use Rattle.window_node.specs.States.{FitsCounted, counted_spelled, read_counted, spell_counted};

use crate::batches::{frame_of, last_copies, last_points, said_of};
use kap_base::{Bytes, NoMemory, Point, Shared, SharedPoints};
use node_core::{Rule, Said};
use state_code::{CodeFault, Cursor, Spelled};
use std::alloc::Global;
use std::marker::Model;
use std::mem;
use task_graph::Count;

/// A window by the number of points: every so many points, the last ones are given.
#[derive(Debug, Drop)]
pub struct CountedWindow {
    /// How many points a batch has at most.
    pub period_count: Count,
    /// How many points lie from one batch to the next.
    pub every_count: Count,
    /// Whether the first batch is given only with its full number of points.
    pub fill_period: bool,
}

/// What is kept of a group: how many points it had, and those that its next batch takes, in order.
#[derive(Drop)]
pub struct CountedGroup {
    seen: u64,
    live: SharedPoints,
}

impl Model for CountedGroup {
    ghost use Rattle.std.specs.Coded.{codes};
    ghost use Rattle.kap_base.specs.Maps.{key_map_code};
    ghost use Rattle.window_node.specs.Counted.{CountedKept};

    ghost Value = { CountedKept };

    ghost coded = { Prim.hlevel (codes, key_map_code) };

    ghost view = { λ g. record { seen = g.seen; live = g.live } };
}

impl CountedGroup {
    /// That of a group without points.
    fn new(alloc: Global) -> CountedGroup
        ensures { result ≡ record { seen = 0; live = [] } }
    {
        CountedGroup {
            seen: 0,
            live: SharedPoints::new(alloc),
        }
    }
}

impl CountedWindow {
    /// Whether a batch is given at the point of this number, of which the first is 1.
    fn is_due(&self, number: u64) -> bool
        ensures { result ≡ is_due self.now number }
    {
        let count = self.period_count.number();
        let every = self.every_count.number();
        if !self.fill_period {
            return number % every == 0;
        }
        if number < count {
            return false;
        }
        (number - count) % every == 0
    }

    /// How many points are still to come up to the next batch, behind so many.
    fn to_come(&self, seen: u64) -> u64
        ensures { result ≡ to_come self.now seen }
    {
        let count = self.period_count.number();
        let every = self.every_count.number();
        if !self.fill_period {
            return every - seen % every;
        }
        if seen < count {
            return count - seen;
        }
        every - (seen - count) % every
    }

    /// How many of the points so far the next batch takes at most.
    fn kept_count(&self, seen: u64) -> u64
        ensures { result ≡ kept_count self.now seen }
    {
        let count = self.period_count.number();
        let to_come = self.to_come(seen);
        if to_come < count { count - to_come } else { 0 }
    }
}

/// Takes the point of this number, at which a batch is given: what is kept of the points, and what is said.
fn give(
    alloc: Global,
    window: &CountedWindow,
    number: u64,
    points: SharedPoints,
    point: Shared<Point>,
) -> Result<(SharedPoints, Said), NoMemory>
    ensures live { IfOk result (λ r. r.0
        ≡ last (kept_count window.now number) (points ++ point ∷ [])) }
    ensures said { IfOk result (λ r. r.1 ≡ batch_at point point.time
        (last window.now.period_count (points ++ point ∷ []))) }
{
    let frame = frame_of(alloc, point.value())?;
    let time = point.value().time;
    let mut points = points;
    points.push(point)?;
    let live = last_copies(alloc, points.as_slice(), window.kept_count(number))?;
    let batch = last_points(points, window.period_count.number());
    Ok((live, said_of(alloc, frame, time, batch)?))
}

/// Takes a point of a group.
fn go_on(
    alloc: Global,
    window: &CountedWindow,
    group: CountedGroup,
    point: Shared<Point>,
) -> Result<(CountedGroup, Said), NoMemory>
    ensures group { IfOk result (λ r. r.0 ≡ (counted_step window.now group 0 point).state) }
    ensures said { IfOk result (λ r. r.1 ≡ (counted_step window.now group 0 point).said) }
{
    let CountedGroup { seen, mut live } = group;
    let Some(seen) = seen.checked_add(1) else {
        return Err(NoMemory);
    };
    if window.is_due(seen) {
        let (live, said) = give(alloc, window, seen, live, point)?;
        return Ok((CountedGroup { seen, live }, said));
    }
    live.push(point)?;
    let live = last_points(live, window.kept_count(seen));
    Ok((CountedGroup { seen, live }, Said::nothing(alloc)))
}

/// The number of points as 8 bytes, and the live points.
impl Spelled for CountedGroup {
    ghost fits = { FitsCounted };

    ghost spell = { spell_counted };

    ghost read = { read_counted };

    ghost spelled = { counted_spelled };

    fn append_spelling(&self, to: &mut Bytes) -> Result<(), NoMemory> {
        self.seen.append_spelling(to)?;
        self.live.append_spelling(to)
    }

    fn read_spelling(alloc: Global, from: &mut Cursor) -> Result<CountedGroup, CodeFault> {
        let seen = <u64 as Spelled>::read_spelling(alloc, from)?;
        let live = <SharedPoints as Spelled>::read_spelling(alloc, from)?;
        Ok(CountedGroup { seen, live })
    }
}

impl Rule for CountedWindow {
    type Cell = CountedGroup;

    ghost ports = { λ w. 1 };

    ghost answer = { counted_says };

    ghost kept = { counted_kept };

    ghost step = { counted_step };

    ghost goes_on = { counted_goes_on };

    fn first(&self, alloc: Global) -> CountedGroup {
        CountedGroup::new(alloc)
    }

    fn feed(
        &mut self,
        alloc: Global,
        cell: &mut CountedGroup,
        port: u32,
        point: Shared<Point>,
    ) -> Result<Said, NoMemory> {
        let _ = port;
        let group = mem::replace(cell, CountedGroup::new(alloc));
        let (group, said) = go_on(alloc, self, group, point)?;
        *cell = group;
        Ok(said)
    }
}
