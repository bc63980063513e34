ghost use Rattle.std.specs.Prelude.{◌≡◌, ◌≤◌, ◌^◌, ◌-ℤ◌, pos, int_div, unsigned_abs, IfOk, OnOk};
ghost use Rattle.state_nodes.specs.ElapsedTimes.{elapsed_from, elapsed_goes_on, elapsed_says, elapsed_step, last_time, time_at};
ghost use Rattle.state_nodes.specs.Words.{latest};

use crate::words::with_result;
use kap_base::{NoMemory, Point, Shared, Text};
use node_core::{Rule, Said, pass};
use std::alloc::Global;
use task_graph::{ElapsedSpec, ElapsedUnit};

/// What `elapsed` does (Kapacitor 1.6: elapsed node): a point with the field becomes the time since the
/// group's point before that has it, in units, without the part of a unit that is left; the first one gives
/// nothing. A point without the field is dropped and counted.
#[derive(Debug, Drop)]
pub struct Elapsed {
    /// The field, the unit, and the name of the result.
    pub spec: ElapsedSpec,
}

/// How many nanoseconds lie between two times.
fn nanos_between(since: i64, time: i64) -> i128
    ensures nanos { result ≡ time -ℤ since }
    ensures short { unsigned_abs result ≤ 2 ^ 64 }
{
    i128::from(time) - i128::from(since)
}

/// How many units so many nanoseconds are, without the part of a unit that is left. Since a unit is no less
/// than a microsecond, this is an integer of 64 bits.
fn units_in(nanos: i128, unit: &ElapsedUnit) -> i64
    requires { unsigned_abs nanos ≤ 2 ^ 64 }
    ensures { result ≡ int_div nanos (pos unit.now) }
{
    let unit = i128::from(unit.nanos());
    (nanos / unit) as i64
}

/// The time of a point that has the field.
fn time_at(point: &Point, field: &Text) -> Option<i64>
    ensures { result ≡ time_at field.now point.now }
{
    if point.fields.contains_key(field) {
        Some(point.time)
    } else {
        None
    }
}

/// What `elapsed` says of a point.
fn feed_elapsed(
    alloc: Global,
    spec: &ElapsedSpec,
    last: &mut Option<i64>,
    point: Point,
) -> Result<Said, NoMemory>
    ensures last { OnOk result (last.new ≡ latest last.old (time_at spec.now.field point)) }
    ensures said { IfOk result (λ said. said
        ≡ elapsed_from spec.now last.old (time_at spec.now.field point) point) }
{
    let Some(time) = time_at(&point, &spec.field) else {
        return Ok(Said::dropped(alloc));
    };
    let since = *last;
    *last = Some(time);
    let Some(since) = since else {
        return Ok(Said::nothing(alloc));
    };
    let units = units_in(nanos_between(since, time), &spec.unit);
    let point = with_result(alloc, point, "elapsed", &spec.name, units)?;
    Ok(pass(alloc, Shared::new(alloc, point)?))
}

impl Rule for Elapsed {
    type Cell = Option<i64>;

    ghost ports = { λ r. 1 };

    ghost answer = { λ r. elapsed_says r.spec };

    ghost kept = { λ r. last_time r.spec };

    ghost step = { λ r. elapsed_step r.spec };

    ghost goes_on = { λ r. elapsed_goes_on r.spec };

    fn first(&self, alloc: Global) -> Option<i64> {
        let _ = alloc;
        None
    }

    fn feed(
        &mut self,
        alloc: Global,
        cell: &mut Option<i64>,
        port: u32,
        point: Shared<Point>,
    ) -> Result<Said, NoMemory> {
        let _ = port;
        let point = point.into_value(alloc)?;
        feed_elapsed(alloc, &self.spec, cell, point)
    }
}
