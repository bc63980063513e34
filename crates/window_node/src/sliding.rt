//! Windows by time that slide.

ghost use Rattle.std.specs.Prelude.{◌≡◌, ◌++◌, ◌∷◌, [], Option, OnOk, IfOk, IsTrue, filter, int_le, int_lt, ◌+ℤ◌, ◌-ℤ◌, pos};
ghost use Rattle.std.specs.Int.{int_max};
ghost use Rattle.kap_base.specs.Points.{is_time};
ghost use Rattle.state_code.specs.Laws.{option_spelled};
ghost use Rattle.state_code.specs.Spelling.{FitsOption, read_option, spell_option};
ghost use Rattle.window_node.specs.Batches.{batch_at};
ghost use Rattle.window_node.specs.Sliding.{is_due, is_near, sliding_kept, sliding_says, sliding_step, slid, slid_on, started};
ghost use Rattle.window_node.specs.SlidingLaws.{sliding_goes_on};
ghost use Rattle.window_node.specs.States.{FitsSliding, read_sliding, sliding_spelled, spell_sliding};

use crate::batches::{frame_of, said_of};
use crate::spans::time_behind;
use kap_base::{Bytes, Duplicate, NoMemory, Point, Shared, SharedPoints, is_time};
use node_core::{Rule, Said};
use state_code::{CodeFault, Cursor, Spelled};
use std::alloc::Global;
use std::marker::Model;
use task_graph::Period;

/// A window by time without edges: at each point the points less than a period before the greatest time so
/// far are given.
#[derive(Debug, Drop)]
pub struct SlidingWindow {
    /// How far back a batch reaches.
    pub period: Period,
    /// Whether batches are given only once the greatest time lies a period behind the first point.
    pub fill_period: bool,
}

/// What is kept of a group from its first point on: the time of that point, the greatest time, and the points
/// that a later batch can take, in order.
#[derive(Drop)]
pub struct SlidingGroup {
    first: i64,
    high: i64,
    live: SharedPoints,
}

impl Model for SlidingGroup {
    ghost use Rattle.std.specs.Coded.{codes};
    ghost use Rattle.std.specs.Prelude.{IsTrue};
    ghost use Rattle.kap_base.specs.Maps.{key_map_code};
    ghost use Rattle.kap_base.specs.Points.{is_time};
    ghost use Rattle.window_node.specs.Sliding.{SlidingKept};

    ghost Value = { SlidingKept };

    ghost coded = { Prim.hlevel (codes, key_map_code) };

    ghost view = { λ g. record { first = g.first; high = g.high; live = g.live } };

    ghost invariant = { λ g. IsTrue (is_time g.high) };
}

/// What is kept of a group: nothing before its first point.
#[derive(Drop)]
pub struct SlidingCell {
    group: Option<SlidingGroup>,
}

impl Model for SlidingCell {
    ghost use Rattle.std.specs.Coded.{codes};
    ghost use Rattle.std.specs.Prelude.{Option};
    ghost use Rattle.kap_base.specs.Maps.{key_map_code};
    ghost use Rattle.window_node.specs.Sliding.{SlidingKept};

    ghost Value = { Option SlidingKept };

    ghost coded = { Prim.hlevel (codes, key_map_code) };

    ghost view = { λ c. c.group };
}

impl SlidingWindow {
    /// Whether the time lies less than a period before another one, or not before it.
    fn is_near(&self, high: i128, time: i64) -> bool
        ensures { result ≡ int_lt (high -ℤ pos self.now.period) time }
    {
        high < time_behind(time, &self.period)
    }

    /// Whether the greatest time lies a period behind the time of the first point.
    fn is_full(&self, first: i64, high: i64) -> bool
        ensures { result ≡ int_le (first +ℤ pos self.now.period) high }
    {
        time_behind(first, &self.period) <= i128::from(high)
    }

    /// Whether a batch is given.
    fn is_due(&self, first: i64, high: i64) -> bool
        ensures { result ≡ is_due self.now first high }
    {
        if !self.fill_period {
            return true;
        }
        self.is_full(first, high)
    }
}

/// The greater of two times.
fn greater(a: i64, b: i64) -> i64
    requires a { IsTrue (is_time a) }
    requires b { IsTrue (is_time b) }
    ensures value { result ≡ int_max a b }
    ensures time { IsTrue (is_time result) }
{
    a.max(b)
}

/// Puts a point behind the live ones where no batch is given yet, if a later one can take it.
fn keep(
    window: &SlidingWindow,
    first: i64,
    live: &mut SharedPoints,
    point: Shared<Point>,
) -> Result<(), NoMemory>
    ensures { OnOk result (live.new
        ≡ live.old ++ filter (is_near window.now (first +ℤ pos window.now.period)) (point ∷ [])) }
{
    let full = time_behind(first, &window.period);
    if window.is_near(full, point.value().time) {
        return live.push(point);
    }
    Ok(())
}

/// Leaves the points near the greatest time.
fn retain_near(window: &SlidingWindow, high: i64, items: &mut Vec<Shared<Point>>)
    ensures { items.new.items ≡ filter (is_near window.now high) items.old.items }
{
    items.retain(|point| window.is_near(i128::from(high), point.value().time));
}

/// The points near the greatest time.
fn near_points(window: &SlidingWindow, high: i64, points: SharedPoints) -> SharedPoints
    ensures { result ≡ filter (is_near window.now high) points }
{
    let mut items = points.into_items();
    retain_near(window, high, &mut items);
    SharedPoints::from_items(items)
}

/// Takes a point at which a batch is given.
fn give(
    alloc: Global,
    window: &SlidingWindow,
    high: i64,
    points: SharedPoints,
    point: Shared<Point>,
) -> Result<(SharedPoints, Said), NoMemory>
    requires { IsTrue (is_time high) }
    ensures live { IfOk result (λ r. r.0
        ≡ filter (is_near window.now high) (points ++ point ∷ [])) }
    ensures said { IfOk result (λ r. r.1
        ≡ batch_at point high (filter (is_near window.now high) (points ++ point ∷ []))) }
{
    let frame = frame_of(alloc, point.value())?;
    let mut points = points;
    points.push(point)?;
    let live = near_points(window, high, points);
    let batch = live.copy(alloc)?;
    Ok((live, said_of(alloc, frame, high, batch)?))
}

/// Takes a point of a group.
fn go_on(
    alloc: Global,
    window: &SlidingWindow,
    group: SlidingGroup,
    point: Shared<Point>,
) -> Result<(SlidingGroup, Said), NoMemory>
    ensures group { IfOk result (λ r. r.0 ≡ slid_on window.now group point) }
    ensures said { IfOk result (λ r. r.1 ≡ slid window.now group.first
        (int_max group.high point.time) point (group.live ++ point ∷ [])) }
{
    let high = greater(group.high, point.value().time);
    let SlidingGroup {
        first,
        mut live,
        ..
    } = group;
    if window.is_due(first, high) {
        let (live, said) = give(alloc, window, high, live, point)?;
        return Ok((SlidingGroup { first, high, live }, said));
    }
    keep(window, first, &mut live, point)?;
    Ok((SlidingGroup { first, high, live }, Said::nothing(alloc)))
}

/// A group before its first point, of this time.
fn started(alloc: Global, time: i64) -> SlidingGroup
    requires { IsTrue (is_time time) }
    ensures { result ≡ record { first = time; high = time; live = [] } }
{
    SlidingGroup {
        first: time,
        high: time,
        live: SharedPoints::new(alloc),
    }
}

/// The time of the first point, the greatest time, and the live points.
impl Spelled for SlidingGroup {
    ghost fits = { FitsSliding };

    ghost spell = { spell_sliding };

    ghost read = { read_sliding };

    ghost spelled = { sliding_spelled };

    fn append_spelling(&self, to: &mut Bytes) -> Result<(), NoMemory> {
        self.first.append_spelling(to)?;
        self.high.append_spelling(to)?;
        self.live.append_spelling(to)
    }

    fn read_spelling(alloc: Global, from: &mut Cursor) -> Result<SlidingGroup, CodeFault> {
        let first = <i64 as Spelled>::read_spelling(alloc, from)?;
        let high = <i64 as Spelled>::read_spelling(alloc, from)?;
        let live = <SharedPoints as Spelled>::read_spelling(alloc, from)?;
        if !is_time(high) {
            return Err(CodeFault::At(from.offset()));
        }
        Ok(SlidingGroup { first, high, live })
    }
}

/// A byte 1 and what is kept, or a byte 0 where there was no point.
impl Spelled for SlidingCell {
    ghost fits = { FitsOption FitsSliding };

    ghost spell = { spell_option spell_sliding };

    ghost read = { read_option read_sliding };

    ghost spelled = { option_spelled sliding_spelled };

    fn append_spelling(&self, to: &mut Bytes) -> Result<(), NoMemory> {
        self.group.append_spelling(to)
    }

    fn read_spelling(alloc: Global, from: &mut Cursor) -> Result<SlidingCell, CodeFault> {
        let group = <Option<SlidingGroup> as Spelled>::read_spelling(alloc, from)?;
        Ok(SlidingCell { group })
    }
}

impl Rule for SlidingWindow {
    type Cell = SlidingCell;

    ghost ports = { λ w. 1 };

    ghost answer = { sliding_says };

    ghost kept = { sliding_kept };

    ghost step = { sliding_step };

    ghost goes_on = { sliding_goes_on };

    fn first(&self, alloc: Global) -> SlidingCell {
        let _ = alloc;
        SlidingCell { group: None }
    }

    fn feed(
        &mut self,
        alloc: Global,
        cell: &mut SlidingCell,
        port: u32,
        point: Shared<Point>,
    ) -> Result<Said, NoMemory> {
        let _ = port;
        let group = match cell.group.take() {
            None => started(alloc, point.value().time),
            Some(group) => group,
        };
        let (group, said) = go_on(alloc, self, group, point)?;
        cell.group = Some(group);
        Ok(said)
    }
}
