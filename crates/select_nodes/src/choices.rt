//! What each select gives.

ghost use Rattle.std.specs.Prelude.{◌≡◌, map, option_map, take, if◌then◌else◌, IfOk, IsTrue};
ghost use Rattle.kap_base.specs.Points.{is_time};
ghost use Rattle.select_nodes.specs.Choices.{chosen, int_at_end, timed, timed_reading};
ghost use Rattle.select_nodes.specs.Picks.{first, readings_at};
ghost use Rattle.select_nodes.specs.Ranks.{by_rank};
ghost use Rattle.select_nodes.specs.Steps.{choice_items};

use crate::distinct::distinct;
use crate::picks::{Pick, count, first, last};
use crate::readings::{Rank, Reading, best, best_of, spread, sum};
use kap_base::{NoMemory, Point, Shared, Value};
use std::alloc::Global;
use task_graph::{Count, Select, SelectSpec};

/// What a select gives: one value at most, or several.
#[derive(Drop)]
pub(crate) enum Choice {
    /// One value, or none.
    One(Option<Pick>),
    /// Several values, in order.
    Many(Vec<Pick>),
}

/// An integer at the end of a batch.
fn int_at_end(tmax: i64, number: Option<i64>) -> Option<Pick>
    requires { IsTrue (is_time tmax) }
    ensures { result ≡ option_map (int_at_end tmax) number }
{
    match number {
        Some(number) => Some(Pick {
            value: Value::Int(number),
            time: tmax,
        }),
        None => None,
    }
}

/// The time of a result: that of its point, where point times are used, and else the end of the batch.
fn result_time(point_times: bool, tmax: i64, time: i64) -> i64
    requires tmax { IsTrue (is_time tmax) }
    requires time { IsTrue (is_time time) }
    ensures value { result ≡ (if point_times then time else tmax) }
    ensures time { IsTrue (is_time result) }
{
    if point_times { time } else { tmax }
}

/// A value with the time of its result, if there is one.
fn timed(point_times: bool, tmax: i64, pick: Option<Pick>) -> Option<Pick>
    requires { IsTrue (is_time tmax) }
    ensures { result ≡ option_map (timed point_times tmax) pick }
{
    match pick {
        Some(Pick { value, time }) => Some(Pick {
            value,
            time: result_time(point_times, tmax, time),
        }),
        None => None,
    }
}

/// An integer with the time of its result.
fn timed_reading(point_times: bool, tmax: i64, reading: Reading) -> Pick
    requires { IsTrue (is_time tmax) }
    ensures { result ≡ timed_reading point_times tmax reading }
{
    Pick {
        value: Value::Int(reading.number),
        time: result_time(point_times, tmax, reading.time),
    }
}

/// The first by rank of the integers at the field of points.
fn timed_best(rank: Rank, spec: &SelectSpec, tmax: i64, points: &[Shared<Point>]) -> Option<Pick>
    requires { IsTrue (is_time tmax) }
    ensures { result ≡ option_map (timed_reading spec.now.use_point_times tmax)
        (first (by_rank rank (readings_at spec.now.field points.now))) }
{
    match best(rank, points, &spec.field) {
        Some(reading) => Some(timed_reading(spec.use_point_times, tmax, reading)),
        None => None,
    }
}

/// The first so many by rank of the integers at the field of points.
fn timed_best_of(
    alloc: Global,
    rank: Rank,
    count: Count,
    spec: &SelectSpec,
    tmax: i64,
    points: &[Shared<Point>],
) -> Result<Vec<Pick>, NoMemory>
    requires { IsTrue (is_time tmax) }
    ensures { IfOk result (λ picks. picks.items ≡ map (timed_reading spec.now.use_point_times tmax)
        (take count (by_rank rank (readings_at spec.now.field points.now)))) }
{
    let mut picks = Vec::new(alloc);
    'timing: for reading in best_of(alloc, rank, count.number(), points, &spec.field)? {
        picks.push(timed_reading(spec.use_point_times, tmax, reading))?;
    }
    Ok(picks)
}

/// What a select gives of the points of a batch that ends at this time.
pub(crate) fn choose(
    alloc: Global,
    spec: &SelectSpec,
    tmax: i64,
    points: &[Shared<Point>],
) -> Result<Choice, NoMemory>
    requires { IsTrue (is_time tmax) }
    ensures { IfOk result (λ choice. choice_items choice ≡ chosen spec.now tmax points.now) }
{
    let field = &spec.field;
    let point_times = spec.use_point_times;
    match spec.select {
        Select::Sum => Ok(Choice::One(int_at_end(tmax, sum(points, field)))),
        Select::Count => Ok(Choice::One(int_at_end(tmax, Some(count(points, field)?)))),
        Select::Min => Ok(Choice::One(timed_best(Rank::Lowest, spec, tmax, points))),
        Select::Max => Ok(Choice::One(timed_best(Rank::Highest, spec, tmax, points))),
        Select::First => Ok(Choice::One(timed(point_times, tmax, first(alloc, points, field)?))),
        Select::Last => Ok(Choice::One(timed(point_times, tmax, last(alloc, points, field)?))),
        Select::Spread => Ok(Choice::One(int_at_end(tmax, spread(points, field)))),
        Select::Distinct => Ok(Choice::Many(distinct(alloc, points, field, tmax)?)),
        Select::Top(n) => {
            let picks = timed_best_of(alloc, Rank::Highest, n, spec, tmax, points)?;
            Ok(Choice::Many(picks))
        }
        Select::Bottom(n) => {
            let picks = timed_best_of(alloc, Rank::Lowest, n, spec, tmax, points)?;
            Ok(Choice::Many(picks))
        }
    }
}
