//! Windows by time with edges.

ghost use Rattle.std.specs.Prelude.{◌≡◌, ◌&&◌, ◌++◌, ◌∷◌, [], Option, OnOk, IfOk, IsTrue, filter, int_le, int_lt, if◌then◌else◌, ◌+ℤ◌, ◌-ℤ◌, ◌<ℤ◌, ◌≤ℤ◌, pos};
ghost use Rattle.kap_base.specs.Points.{is_time};
ghost use Rattle.kap_base.specs.Times.{IsInReach};
ghost use Rattle.state_code.specs.Laws.{option_spelled};
ghost use Rattle.state_code.specs.Spelling.{FitsOption, read_option, spell_option};
ghost use Rattle.window_node.specs.Batches.{batch_at};
ghost use Rattle.window_node.specs.EdgeLaws.{edge_goes_on};
ghost use Rattle.window_node.specs.Edges.{edge_kept, edge_says, edge_step, emitted, filled, first_edge, following, is_live, moved, opened, passed, takes, truncated};
ghost use Rattle.window_node.specs.States.{FitsEdge, edge_spelled, is_edge, read_edge, spell_edge};

use crate::batches::{frame_of, said_of};
use crate::spans::{nanos_of, time_behind};
use kap_base::{Bytes, Duplicate, NoMemory, Point, Shared, SharedPoints, trunc};
use node_core::{Rule, Said};
use state_code::{CodeFault, Cursor, Spelled};
use std::alloc::Global;
use std::marker::Model;
use task_graph::Period;

/// The least edge, in nanoseconds from 1970-01-01T00:00:00Z on: the least time.
const LEAST_EDGE: i128 = -9_000_000_000_000_000_000;

/// A window by time whose batches are given at edges: at the first point that isn't before an edge, the
/// points of the period before it.
#[derive(Debug, Drop)]
pub struct EdgeWindow {
    /// How long before its edge a batch begins.
    pub period: Period,
    /// How long behind a point that emits an edge the next one lies.
    pub every: Period,
    /// Whether edges are multiples of `every`, counted from the year 1.
    pub align: bool,
    /// Whether the first edge lies a period behind the first point, and not `every`.
    pub fill_period: bool,
}

/// What is kept of a group from its first point on: the time of that point, the edge that waits, which may
/// pass 64 bits, and the points that this edge or a later one can take, in order.
#[derive(Drop)]
pub struct EdgeGroup {
    first: i64,
    edge: i128,
    live: SharedPoints,
}

impl Model for EdgeGroup {
    ghost use Rattle.std.specs.Coded.{codes};
    ghost use Rattle.std.specs.Prelude.{IsTrue};
    ghost use Rattle.kap_base.specs.Maps.{key_map_code};
    ghost use Rattle.window_node.specs.Edges.{EdgeKept};
    ghost use Rattle.window_node.specs.States.{is_edge};

    ghost Value = { EdgeKept };

    ghost coded = { Prim.hlevel (codes, key_map_code) };

    ghost view = { λ g. record { first = g.first; edge = g.edge; live = g.live } };

    ghost invariant = { λ g. IsTrue (is_edge g.edge) };
}

/// What is kept of a group: nothing before its first point.
#[derive(Drop)]
pub struct EdgeCell {
    group: Option<EdgeGroup>,
}

impl Model for EdgeCell {
    ghost use Rattle.std.specs.Coded.{codes};
    ghost use Rattle.std.specs.Prelude.{Option};
    ghost use Rattle.kap_base.specs.Maps.{key_map_code};
    ghost use Rattle.window_node.specs.Edges.{EdgeKept};

    ghost Value = { Option EdgeKept };

    ghost coded = { Prim.hlevel (codes, key_map_code) };

    ghost view = { λ c. c.group };
}

/// The time, truncated to a period.
fn truncated(time: i64, every: &Period) -> i64
    requires { IsInReach time }
    ensures value { result ≡ truncated time every.now }
    ensures near { time <ℤ (result +ℤ pos every.now) }
{
    trunc(time, nanos_of(every))
}

impl EdgeWindow {
    /// The edge behind one that a point of this time caused to be emitted.
    fn following(&self, time: i64) -> i128
        requires { IsTrue (is_time time) }
        ensures edge { result ≡ following self.now time }
        ensures reach { IsTrue (is_edge result) }
    {
        let next = time + nanos_of(&self.every);
        if self.align {
            return i128::from(truncated(next, &self.every));
        }
        i128::from(next)
    }

    /// The first edge that has a whole period behind a first point of this time.
    fn filled(&self, time: i64) -> i128
        requires { IsTrue (is_time time) }
        ensures edge { result ≡ filled self.now time }
        ensures reach { IsTrue (is_edge result) }
    {
        let full = time + nanos_of(&self.period);
        if self.align {
            return time_behind(truncated(full, &self.every), &self.every);
        }
        i128::from(full)
    }

    /// The first edge of a group whose first point has this time.
    fn first_edge(&self, time: i64) -> i128
        requires { IsTrue (is_time time) }
        ensures edge { result ≡ first_edge self.now time }
        ensures reach { IsTrue (is_edge result) }
    {
        if self.fill_period {
            self.filled(time)
        } else {
            self.following(time)
        }
    }

    /// Whether the time isn't more than a period before the edge.
    fn is_live(&self, edge: i128, time: i64) -> bool
        ensures { result ≡ int_le (edge -ℤ pos self.now.period) time }
    {
        edge <= time_behind(time, &self.period)
    }

    /// Whether the edge's batch takes a point of this time.
    fn takes(&self, edge: i128, time: i64) -> bool
        ensures { result ≡ (int_le (edge -ℤ pos self.now.period) time && int_lt time edge) }
    {
        if !self.is_live(edge, time) {
            return false;
        }
        i128::from(time) < edge
    }
}

/// Puts a point behind the live ones, where the edge or a later one can take it.
fn keep(
    window: &EdgeWindow,
    edge: i128,
    live: &mut SharedPoints,
    point: Shared<Point>,
) -> Result<(), NoMemory>
    ensures { OnOk result (live.new ≡ live.old ++ filter (is_live window.now edge) (point ∷ [])) }
{
    if window.is_live(edge, point.value().time) {
        return live.push(point);
    }
    Ok(())
}

/// A group with its first point.
fn opened(alloc: Global, window: &EdgeWindow, point: Shared<Point>) -> Result<EdgeGroup, NoMemory>
    ensures { IfOk result (λ group. group ≡ opened window.now point) }
{
    let first = point.value().time;
    let edge = window.first_edge(first);
    let mut live = SharedPoints::new(alloc);
    keep(window, edge, &mut live, point)?;
    Ok(EdgeGroup { first, edge, live })
}

/// Copies a point into a batch, where that takes it.
fn copy_into(
    alloc: Global,
    taken: bool,
    point: &Shared<Point>,
    batch: &mut SharedPoints,
) -> Result<(), NoMemory>
    ensures { OnOk result
        (batch.new ≡ batch.old ++ (if taken then point.now ∷ [] else [])) }
{
    if !taken {
        return Ok(());
    }
    batch.push(point.copy(alloc)?)
}

/// Puts a live point into the edge's batch, where that takes it, and among the points that the next edge can
/// take. It is copied where it goes to both.
fn deal(
    alloc: Global,
    window: &EdgeWindow,
    edge: i128,
    next: i128,
    point: Shared<Point>,
    batch: &mut SharedPoints,
    live: &mut SharedPoints,
) -> Result<(), NoMemory>
    ensures batch { OnOk result
        (batch.new ≡ batch.old ++ filter (takes window.now edge) (point ∷ [])) }
    ensures live { OnOk result
        (live.new ≡ live.old ++ filter (is_live window.now next) (point ∷ [])) }
{
    let taken = window.takes(edge, point.value().time);
    if !window.is_live(next, point.value().time) {
        if taken {
            return batch.push(point);
        }
        return Ok(());
    }
    copy_into(alloc, taken, &point, batch)?;
    live.push(point)
}

/// Parts the live points at an edge: those that its batch takes, and those that the next edge can take. Both
/// get room for as many as there were: the next window may have as many.
fn part(
    alloc: Global,
    window: &EdgeWindow,
    edge: i128,
    next: i128,
    points: SharedPoints,
) -> Result<(SharedPoints, SharedPoints), NoMemory>
    ensures batch { IfOk result (λ parts. parts.0 ≡ filter (takes window.now edge) points) }
    ensures live { IfOk result (λ parts. parts.1 ≡ filter (is_live window.now next) points) }
{
    let room = points.len();
    let mut batch = SharedPoints::from_items(Vec::with_capacity(alloc, room)?);
    let mut live = SharedPoints::from_items(Vec::with_capacity(alloc, room)?);
    'parting: for point in points.into_items() {
        deal(alloc, window, edge, next, point, &mut batch, &mut live)?;
    }
    Ok((batch, live))
}

/// The end of the batch of an edge that a point of this time passed.
#[tactic(auto, using(crate::proofs::RangeLaws::edge_time))]
fn tmax_of(edge: i128, time: i64) -> i64
    requires edge { IsTrue (is_edge edge) }
    requires passed { edge ≤ℤ time }
    requires time { IsTrue (is_time time) }
    ensures same { result ≡ edge }
    ensures time { IsTrue (is_time result) }
{
    edge as i64
}

/// Takes a point that isn't before the edge that waits, which it so emits.
fn pass_edge(
    alloc: Global,
    window: &EdgeWindow,
    group: EdgeGroup,
    point: Shared<Point>,
) -> Result<(EdgeGroup, Said), NoMemory>
    requires { group.edge ≤ℤ point.time }
    ensures group { IfOk result (λ r. r.0 ≡ passed window.now group point) }
    ensures said { IfOk result (λ r. r.1
        ≡ batch_at point group.edge (filter (takes window.now group.edge) group.live)) }
{
    let EdgeGroup { first, edge, live } = group;
    let tmax = tmax_of(edge, point.value().time);
    let next = window.following(point.value().time);
    let (batch, mut live) = part(alloc, window, edge, next, live)?;
    let frame = frame_of(alloc, point.value())?;
    let said = said_of(alloc, frame, tmax, batch)?;
    keep(window, next, &mut live, point)?;
    let group = EdgeGroup {
        first,
        edge: next,
        live,
    };
    Ok((group, said))
}

/// Takes a further point of a group.
#[tactic(auto, unfolding(crate::specs::Edges::next_edge))]
fn go_on(
    alloc: Global,
    window: &EdgeWindow,
    group: EdgeGroup,
    point: Shared<Point>,
) -> Result<(EdgeGroup, Said), NoMemory>
    ensures group { IfOk result (λ r. r.0 ≡ moved window.now group point) }
    ensures said { IfOk result (λ r. r.1 ≡ emitted window.now group.edge point group.live) }
{
    if group.edge <= i128::from(point.value().time) {
        let (group, said) = pass_edge(alloc, window, group, point)?;
        return Ok((group, said));
    }
    let EdgeGroup {
        first,
        edge,
        mut live,
    } = group;
    keep(window, edge, &mut live, point)?;
    Ok((EdgeGroup { first, edge, live }, Said::nothing(alloc)))
}

/// The time of the first point, the edge as 16 bytes, and the live points.
impl Spelled for EdgeGroup {
    ghost fits = { FitsEdge };

    ghost spell = { spell_edge };

    ghost read = { read_edge };

    ghost spelled = { edge_spelled };

    fn append_spelling(&self, to: &mut Bytes) -> Result<(), NoMemory> {
        self.first.append_spelling(to)?;
        self.edge.append_spelling(to)?;
        self.live.append_spelling(to)
    }

    fn read_spelling(alloc: Global, from: &mut Cursor) -> Result<EdgeGroup, CodeFault> {
        let first = <i64 as Spelled>::read_spelling(alloc, from)?;
        let edge = <i128 as Spelled>::read_spelling(alloc, from)?;
        let live = <SharedPoints as Spelled>::read_spelling(alloc, from)?;
        if edge < LEAST_EDGE {
            return Err(CodeFault::At(from.offset()));
        }
        Ok(EdgeGroup { first, edge, live })
    }
}

/// A byte 1 and what is kept, or a byte 0 where there was no point.
impl Spelled for EdgeCell {
    ghost fits = { FitsOption FitsEdge };

    ghost spell = { spell_option spell_edge };

    ghost read = { read_option read_edge };

    ghost spelled = { option_spelled edge_spelled };

    fn append_spelling(&self, to: &mut Bytes) -> Result<(), NoMemory> {
        self.group.append_spelling(to)
    }

    fn read_spelling(alloc: Global, from: &mut Cursor) -> Result<EdgeCell, CodeFault> {
        let group = <Option<EdgeGroup> as Spelled>::read_spelling(alloc, from)?;
        Ok(EdgeCell { group })
    }
}

impl Rule for EdgeWindow {
    type Cell = EdgeCell;

    ghost ports = { λ w. 1 };

    ghost answer = { edge_says };

    ghost kept = { edge_kept };

    ghost step = { edge_step };

    ghost goes_on = { edge_goes_on };

    fn first(&self, alloc: Global) -> EdgeCell {
        let _ = alloc;
        EdgeCell { group: None }
    }

    fn feed(
        &mut self,
        alloc: Global,
        cell: &mut EdgeCell,
        port: u32,
        point: Shared<Point>,
    ) -> Result<Said, NoMemory> {
        let _ = port;
        match cell.group.take() {
            None => {
                cell.group = Some(opened(alloc, self, point)?);
                Ok(Said::nothing(alloc))
            }
            Some(group) => {
                let (group, said) = go_on(alloc, self, group, point)?;
                cell.group = Some(group);
                Ok(said)
            }
        }
    }
}
