//! `shift` and `sample`.

ghost use Rattle.std.specs.Prelude.{◌≡◌, IfOk, IfSome, OnOk, IsTrue, true};
ghost use Rattle.kap_base.specs.Points.{is_time};
ghost use Rattle.basic_nodes.specs.GroupKinds.{counted_by};
ghost use Rattle.basic_nodes.specs.Shifts.{later, sample_says, shift_says};

use kap_base::{NoMemory, Point, Shared, is_time};
use lambda_eval::next_count;
use node_core::{Said, pass_if, pass_new};
use std::alloc::Global;
use task_graph::Count;

/// The point at another time.
fn with_time(mut point: Point, time: i64) -> Point
    requires { IsTrue (is_time time) }
    ensures { result ≡ record point { time = time } }
{
    point.time = time;
    point
}

/// The time so many nanoseconds later, where it lies in the range of times.
#[tactic(auto, using(crate::proofs::TimeLaws::no_time))]
fn later(by: i64, time: i64) -> Option<i64>
    ensures later { result ≡ later by time }
    ensures fits { IfSome result (λ t. IsTrue (is_time t)) }
{
    let later = time.checked_add(by)?;
    if is_time(later) { Some(later) } else { None }
}

/// What `shift` says of a point.
pub(crate) fn feed_shift(alloc: Global, by: i64, point: Shared<Point>) -> Result<Said, NoMemory>
    ensures { IfOk result (λ said. said ≡ shift_says by point) }
{
    match later(by, point.value().time) {
        Some(time) => pass_new(alloc, with_time(point.into_value(alloc)?, time)),
        None => Ok(Said::dropped(alloc)),
    }
}

/// What `sample` says of a point, by the number of points of its group before it.
pub(crate) fn feed_sample(
    alloc: Global,
    n: &Count,
    count: &mut u64,
    point: Shared<Point>,
) -> Result<Said, NoMemory>
    ensures count { OnOk result (count.new ≡ counted_by true count.old) }
    ensures said { IfOk result (λ said. said ≡ sample_says n.now count.old point) }
{
    let before = *count;
    *count = next_count(before)?;
    Ok(pass_if(alloc, before % n.number() == 0, point))
}
