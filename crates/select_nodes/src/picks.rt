//! What stands at a field of points, whatever its kind.

ghost use Rattle.std.specs.Prelude.{◌≡◌, ◌+◌, length, pos, IfOk, None};
ghost use Rattle.std.specs.FinMap.{get};
ghost use Rattle.std.specs.List.{last_or};
ghost use Rattle.std.specs.Option.{option_to_list};
ghost use Rattle.select_nodes.specs.Picks.{first, pick_at, picks_at, values_at};

use kap_base::{Duplicate, NoMemory, Point, Shared, Text, Value};
use std::alloc::Global;
use std::marker::Model;

/// A value that a select gives, and the time of its result.
#[derive(Drop)]
pub(crate) struct Pick {
    /// The value.
    pub value: Value,
    /// Nanoseconds from 1970-01-01T00:00:00Z on, within plus or minus 9,000,000,000,000,000,000.
    pub time: i64,
}

impl Model for Pick {
    ghost use Rattle.select_nodes.specs.Picks.{IsPick, PickValue};

    ghost Value = { PickValue };

    ghost view = { λ p. record { value = p.value; time = p.time } };

    ghost inverse = { λ s. record { value = s.value; time = s.time } };

    ghost invariant = { λ p. IsPick (record { value = p.value; time = p.time }) };
}

/// What stands at the field of a point, copied, and the point's time.
pub(crate) fn pick_at(alloc: Global, point: &Point, field: &Text) -> Result<Option<Pick>, NoMemory>
    ensures { IfOk result (λ pick. pick ≡ pick_at field.now point.now) }
{
    match point.fields.get(field) {
        Some(value) => Ok(Some(Pick {
            value: value.copy(alloc)?,
            time: point.time,
        })),
        None => Ok(None),
    }
}

/// The first of what stands at the field of points.
pub(crate) fn first(
    alloc: Global,
    points: &[Shared<Point>],
    field: &Text,
) -> Result<Option<Pick>, NoMemory>
    ensures { IfOk result (λ pick. pick ≡ first (picks_at field.now points.now)) }
{
    let mut left = points;
    'seeking: while let Some((point, others)) = left.split_first() {
        if let Some(pick) = pick_at(alloc, point.value(), field)? {
            return Ok(Some(pick));
        }
        left = others;
    }
    Ok(None)
}

/// The last of what stands at the field of points.
pub(crate) fn last(
    alloc: Global,
    points: &[Shared<Point>],
    field: &Text,
) -> Result<Option<Pick>, NoMemory>
    ensures { IfOk result (λ pick. pick ≡ last_or None (picks_at field.now points.now)) }
{
    let mut left = points;
    'seeking: while let Some((point, others)) = left.split_last() {
        if let Some(pick) = pick_at(alloc, point.value(), field)? {
            return Ok(Some(pick));
        }
        left = others;
    }
    Ok(None)
}

/// A number, with one more where something stands at the field of the point.
fn counted(count: u64, point: &Point, field: &Text) -> Result<u64, NoMemory>
    ensures { IfOk result (λ next. next ≡ count + length
        (option_to_list (get point.now.fields field.now))) }
{
    if point.fields.get(field).is_none() {
        return Ok(count);
    }
    match count.checked_add(1) {
        Some(next) => Ok(next),
        None => Err(NoMemory),
    }
}

/// At how many points something stands at the field.
fn count_all(points: &[Shared<Point>], field: &Text) -> Result<u64, NoMemory>
    ensures { IfOk result (λ n. n ≡ length (values_at field.now points.now)) }
{
    let mut count = 0;
    'counting: for point in points {
        count = counted(count, point.value(), field)?;
    }
    Ok(count)
}

/// At how many points something stands at the field. A number that passes 63 bits is want of memory.
pub(crate) fn count(points: &[Shared<Point>], field: &Text) -> Result<i64, NoMemory>
    ensures { IfOk result (λ n. n ≡ pos (length (values_at field.now points.now))) }
{
    match i64::try_from(count_all(points, field)?) {
        Ok(count) => Ok(count),
        Err(_) => Err(NoMemory),
    }
}
