//! The integers that stand at a field of points.

ghost use Rattle.std.specs.Prelude.{◌≡◌, ◌-ℤ◌, IfOk, take};
ghost use Rattle.std.specs.Int.{int_wrap, w64};
ghost use Rattle.std.specs.Ordering.{is_lt};
ghost use Rattle.select_nodes.specs.Choices.{spread_in, sum_in};
ghost use Rattle.select_nodes.specs.Picks.{first, reading_at, readings_at};
ghost use Rattle.select_nodes.specs.Ranks.{by_rank, goes_before};
ghost use Rattle.select_nodes.specs.Steps.{added, better};

use kap_base::{NoMemory, Point, Shared, Text, Value};
use std::alloc::Global;
use std::cmp::Ordering;
use std::marker::Model;

/// An integer at a point, and the point's time.
#[derive(Clone, Copy)]
pub(crate) struct Reading {
    /// The integer.
    pub number: i64,
    /// Nanoseconds from 1970-01-01T00:00:00Z on, within plus or minus 9,000,000,000,000,000,000.
    pub time: i64,
}

impl Model for Reading {
    ghost use Rattle.std.specs.Prelude.{IsTrue};
    ghost use Rattle.kap_base.specs.Points.{is_time};
    ghost use Rattle.select_nodes.specs.Picks.{ReadingValue};

    ghost Value = { ReadingValue };

    ghost view = { λ r. record { number = r.number; time = r.time } };

    ghost inverse = { λ s. record { number = s.number; time = s.time } };

    ghost invariant = { λ r. IsTrue (is_time r.time) };
}

/// Which readings come first.
#[derive(Clone, Copy)]
pub(crate) enum Rank {
    /// The lesser ones.
    Lowest,
    /// The greater ones.
    Highest,
}

/// The integer at the field of a point, if it is there and is one.
fn reading_at(point: &Point, field: &Text) -> Option<Reading>
    ensures { result ≡ reading_at field.now point.now }
{
    match point.fields.get(field) {
        Some(Value::Int(number)) => Some(Reading {
            number: *number,
            time: point.time,
        }),
        Some(Value::Bool(_)) => None,
        Some(Value::Str(_)) => None,
        None => None,
    }
}

/// The integers at the field of points, in order.
fn readings_at(
    alloc: Global,
    points: &[Shared<Point>],
    field: &Text,
) -> Result<Vec<Reading>, NoMemory>
    ensures { IfOk result (λ readings. readings.items ≡ readings_at field.now points.now) }
{
    let mut readings = Vec::new(alloc);
    'reading: for point in points {
        if let Some(reading) = reading_at(point.value(), field) {
            readings.push(reading)?;
        }
    }
    Ok(readings)
}

/// A sum with what is read at one point more; there is none of no integers.
#[tactic(auto, using(std::proofs::lemmas::Int::wraps))]
fn added(sum: Option<i64>, next: Option<Reading>) -> Option<i64>
    ensures { result ≡ added sum next }
{
    match next {
        Some(reading) => Some(sum.unwrap_or(0).wrapping_add(reading.number)),
        None => sum,
    }
}

/// The sum of the integers at the field of points, brought into 64 bits.
pub(crate) fn sum(points: &[Shared<Point>], field: &Text) -> Option<i64>
    ensures { result ≡ sum_in (readings_at field.now points.now) }
{
    let mut sum = None;
    'adding: for point in points {
        sum = added(sum, reading_at(point.value(), field));
    }
    sum
}

/// Whether a reading comes before another one, whatever their places.
fn goes_before(rank: Rank, one: &Reading, other: &Reading) -> bool
    ensures { result ≡ goes_before rank one.now other.now }
{
    match rank {
        Rank::Lowest => one.number < other.number,
        Rank::Highest => other.number < one.number,
    }
}

/// The one of the two that comes first, where the second stands at a later place.
fn better(rank: Rank, best: Option<Reading>, next: Option<Reading>) -> Option<Reading>
    ensures { result ≡ better (goes_before rank) best next }
{
    let Some(next) = next else {
        return best;
    };
    let Some(best) = best else {
        return Some(next);
    };
    if goes_before(rank, &next, &best) {
        Some(next)
    } else {
        Some(best)
    }
}

/// The first by rank of the integers at the field of points, and of equal ones the one at the earliest place.
pub(crate) fn best(rank: Rank, points: &[Shared<Point>], field: &Text) -> Option<Reading>
    ensures { result ≡ first (by_rank rank (readings_at field.now points.now)) }
{
    let mut best = None;
    'comparing: for point in points {
        best = better(rank, best, reading_at(point.value(), field));
    }
    best
}

/// A difference, brought into 64 bits.
#[tactic(auto, using(std::proofs::lemmas::Int::wraps))]
fn less(high: i64, low: i64) -> i64
    ensures { result ≡ int_wrap w64 (high -ℤ low) }
{
    high.wrapping_sub(low)
}

/// The greatest of the integers at the field of points less the least, brought into 64 bits.
pub(crate) fn spread(points: &[Shared<Point>], field: &Text) -> Option<i64>
    ensures { result ≡ spread_in (readings_at field.now points.now) }
{
    let high = best(Rank::Highest, points, field)?;
    let low = best(Rank::Lowest, points, field)?;
    Some(less(high.number, low.number))
}

/// How a reading compares with another one by rank, whatever their places.
fn compare(rank: Rank, one: &Reading, other: &Reading) -> Ordering
    ensures { is_lt result ≡ goes_before rank one.now other.now }
{
    match rank {
        Rank::Lowest => one.number.cmp(&other.number),
        Rank::Highest => other.number.cmp(&one.number),
    }
}

/// The readings by rank; of equal integers the earlier place comes first.
fn sort(rank: Rank, readings: Vec<Reading>) -> Result<Vec<Reading>, NoMemory>
    ensures { IfOk result (λ sorted. sorted.items ≡ by_rank rank readings.items) }
{
    let mut readings = readings;
    readings.sort_by(|one, other| compare(rank, one, other))?;
    Ok(readings)
}

/// The first so many by rank of the integers at the field of points. It takes k log k steps for k points.
pub(crate) fn best_of(
    alloc: Global,
    rank: Rank,
    count: u64,
    points: &[Shared<Point>],
    field: &Text,
) -> Result<Vec<Reading>, NoMemory>
    ensures { IfOk result (λ best. best.items
        ≡ take count (by_rank rank (readings_at field.now points.now))) }
{
    let mut readings = sort(rank, readings_at(alloc, points, field)?)?;
    if count < readings.len() as u64 {
        readings.truncate(count as usize);
    }
    Ok(readings)
}
