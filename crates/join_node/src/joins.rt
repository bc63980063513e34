//! `join`.

ghost use Rattle.std.specs.Prelude.{◌≡◌, ◌++◌, ◌<◌, ◌≤ℤ◌, ◌*◌, ◌^◌, pos, false, true, flat_map, IfOk, OnOk, IsTrue, MatchOption, Some};
ghost use Rattle.kap_base.specs.Points.{is_time};
ghost use Rattle.join_node.specs.JoinLaws.{join_goes_on};
ghost use Rattle.join_node.specs.Joins.{is_heard, join_says, parents, rounded, rounded_time, unfilled};
ghost use Rattle.join_node.specs.Queues.{arrived, emptied, filled_by, join_kept, join_step, moved, risen};
ghost use Rattle.join_node.specs.Results.{result_of};
ghost use Rattle.join_node.specs.Sets.{sets};

use crate::groups::{JoinCell, JoinGroup};
use crate::queues::{Queue, Set, empty, have_points, no_queues, place, take_set};
use crate::results::add_result;
use kap_base::{Body, NoMemory, Point, Shared, is_time, round};
use node_core::{Few, Rule, Said};
use std::alloc::Global;
use task_graph::{Fill, JoinSpec, Span};

/// What `join` does (Kapacitor 1.6: join node): the points of all parents with one rounded time are put into
/// sets, of which the k-th has each parent's k-th point, and a set becomes one point.
#[derive(Debug, Drop)]
pub struct Join {
    /// The prefixes, of which there is one for each parent, and the other properties.
    pub spec: JoinSpec,
}

/// The nanoseconds of a tolerance.
fn nanos_of(tolerance: &Span) -> i64
    ensures value { result ≡ pos tolerance.now }
    ensures limit { result ≤ℤ pos (2 * 10 ^ 17) }
{
    tolerance.nanos() as i64
}

/// A time, rounded to multiples of a tolerance that isn't 0.
fn rounded_time(tolerance: &Span, time: i64) -> i64
    requires { IsTrue (is_time time) }
    ensures { result ≡ rounded_time tolerance.now time }
{
    let nanos = nanos_of(tolerance);
    if nanos == 0 {
        return time;
    }
    round(time, nanos)
}

/// The rounded time of a parent's point, where it is in range.
fn heard(join: &JoinSpec, port: u32, point: &Point) -> Option<i64>
    requires { port < parents join.now }
    ensures { MatchOption result (is_heard join.now (port, point.now) ≡ false)
        (λ time. (is_heard join.now (port, point.now) ≡ true)
        × (time ≡ rounded join.now (port, point.now)) × IsTrue (is_time time)) }
{
    let time = rounded_time(&join.tolerance, point.time);
    if is_time(time) { Some(time) } else { None }
}

/// Takes all sets of queues, in order, and adds their results.
fn add_all(
    alloc: Global,
    join: &JoinSpec,
    time: i64,
    queues: &mut [Queue],
    bodies: &mut Few<Body>,
) -> Result<(), NoMemory>
    requires { IsTrue (is_time time) }
    ensures bodies { OnOk result
        (bodies.new ≡ bodies.old ++ flat_map (result_of join.now time) (sets queues.old)) }
    ensures queues { OnOk result (emptied queues.new ≡ emptied queues.old) }
{
    'adding: while have_points(queues) {
        let set = take_set(alloc, queues)?;
        add_result(alloc, join, time, set, bodies)?;
    }
    Ok(())
}

/// What is given of the sets that aren't full, where a greater rounded time has come.
fn unfilled(
    alloc: Global,
    join: &JoinSpec,
    time: i64,
    queues: &mut [Queue],
) -> Result<Few<Body>, NoMemory>
    requires { IsTrue (is_time time) }
    ensures bodies { IfOk result (λ bodies. bodies ≡ unfilled join.now time (sets queues.old)) }
    ensures queues { OnOk result (emptied queues.new ≡ emptied queues.old) }
{
    let mut bodies = Few::new(alloc);
    match join.fill {
        Fill::None => Ok(bodies),
        _ => {
            add_all(alloc, join, time, queues, &mut bodies)?;
            Ok(bodies)
        }
    }
}

/// Gives what is to be given of the sets that aren't full, and the queues without points.
fn close(
    alloc: Global,
    join: &JoinSpec,
    time: i64,
    mut queues: Vec<Queue>,
) -> Result<(Few<Body>, Vec<Queue>), NoMemory>
    requires { IsTrue (is_time time) }
    ensures bodies { IfOk result (λ r. r.0 ≡ unfilled join.now time (sets queues.items)) }
    ensures queues { IfOk result (λ r. r.1.items ≡ emptied queues.items) }
{
    let bodies = unfilled(alloc, join, time, &mut queues)?;
    empty(&mut queues);
    Ok((bodies, queues))
}

/// Adds the result of the set that a point filled, if it filled one.
fn add_filled(
    alloc: Global,
    join: &JoinSpec,
    time: i64,
    filled: Option<Set>,
    bodies: &mut Few<Body>,
) -> Result<(), NoMemory>
    requires { IsTrue (is_time time) }
    ensures { OnOk result (bodies.new ≡ bodies.old ++ filled_by join.now time filled) }
{
    match filled {
        Some(set) => add_result(alloc, join, time, set, bodies),
        None => Ok(()),
    }
}

/// A point comes to queues of its rounded time, behind what was given.
fn arrived(
    alloc: Global,
    join: &JoinSpec,
    time: i64,
    before: Few<Body>,
    mut queues: Vec<Queue>,
    parent: usize,
    point: Shared<Point>,
) -> Result<(JoinGroup, Said), NoMemory>
    requires { IsTrue (is_time time) }
    ensures group { IfOk result (λ r. Some r.0
        ≡ (arrived join.now time before queues.items parent point).state) }
    ensures said { IfOk result (λ r. r.1
        ≡ (arrived join.now time before queues.items parent point).said) }
{
    let mut bodies = before;
    let filled = place(alloc, &mut queues, parent, point)?;
    add_filled(alloc, join, time, filled, &mut bodies)?;
    Ok((JoinGroup { time, queues }, Said::given(alloc, bodies)))
}

/// A point with a rounded time greater than that of queues comes.
fn risen(
    alloc: Global,
    join: &JoinSpec,
    greatest: i64,
    queues: Vec<Queue>,
    time: i64,
    parent: usize,
    point: Shared<Point>,
) -> Result<(JoinGroup, Said), NoMemory>
    requires greatest { IsTrue (is_time greatest) }
    requires time { IsTrue (is_time time) }
    ensures group { IfOk result (λ r. Some r.0 ≡ (risen join.now
        (record { time = greatest; queues = queues.items }) time parent point).state) }
    ensures said { IfOk result (λ r. r.1 ≡ (risen join.now
        (record { time = greatest; queues = queues.items }) time parent point).said) }
{
    let (bodies, queues) = close(alloc, join, greatest, queues)?;
    arrived(alloc, join, time, bodies, queues, parent, point)
}

/// A point with a rounded time in range comes to a group.
fn moved(
    alloc: Global,
    join: &JoinSpec,
    group: Option<JoinGroup>,
    time: i64,
    parent: usize,
    point: Shared<Point>,
) -> Result<(JoinGroup, Said), NoMemory>
    requires { IsTrue (is_time time) }
    ensures group { IfOk result (λ r. Some r.0 ≡ (moved join.now group time parent point).state) }
    ensures said { IfOk result (λ r. r.1 ≡ (moved join.now group time parent point).said) }
{
    let Some(group) = group else {
        let queues = no_queues(alloc, join.prefixes.len())?;
        return arrived(alloc, join, time, Few::new(alloc), queues, parent, point);
    };
    if time < group.time {
        return Ok((group, Said::dropped(alloc)));
    }
    if group.time < time {
        return risen(alloc, join, group.time, group.queues, time, parent, point);
    }
    arrived(
        alloc,
        join,
        time,
        Few::new(alloc),
        group.queues,
        parent,
        point,
    )
}

impl Rule for Join {
    type Cell = JoinCell;

    ghost ports = { λ r. parents r.spec };

    ghost answer = { λ r. join_says r.spec };

    ghost kept = { λ r. join_kept r.spec };

    ghost step = { λ r. join_step r.spec };

    ghost goes_on = { λ r. join_goes_on r.spec };

    fn first(&self, alloc: Global) -> JoinCell {
        let _ = alloc;
        JoinCell { group: None }
    }

    fn feed(
        &mut self,
        alloc: Global,
        cell: &mut JoinCell,
        port: u32,
        point: Shared<Point>,
    ) -> Result<Said, NoMemory> {
        let Some(time) = heard(&self.spec, port, point.value()) else {
            return Ok(Said::dropped(alloc));
        };
        let group = cell.group.take();
        let (group, said) = moved(alloc, &self.spec, group, time, port as usize, point)?;
        cell.group = Some(group);
        Ok(said)
    }
}
