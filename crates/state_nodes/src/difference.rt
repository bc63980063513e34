ghost use Rattle.std.specs.Prelude.{◌≡◌, ◌-ℤ◌, IfOk, OnOk};
ghost use Rattle.std.specs.Int.{int_wrap, w64};
ghost use Rattle.state_nodes.specs.Differences.{difference_from, difference_goes_on, difference_says, difference_step, last_int};
ghost use Rattle.state_nodes.specs.Words.{int_at, latest};

use crate::words::{int_at, with_result};
use kap_base::{NoMemory, Point, Shared};
use node_core::{Rule, Said, pass_new};
use std::alloc::Global;
use task_graph::FieldSpec;

/// What `difference` does (Kapacitor 1.6: difference node): a point with an integer at the field becomes that
/// integer less the one before in the group, brought into 64 bits; the first one gives nothing. A point
/// without one is dropped and counted.
#[derive(Debug, Drop)]
pub struct Difference {
    /// The field, and the name of the result.
    pub spec: FieldSpec,
}

/// The difference, brought into 64 bits.
#[tactic(auto, using(std::proofs::lemmas::Int::wraps))]
fn less(number: i64, before: i64) -> i64
    ensures { result ≡ int_wrap w64 (number -ℤ before) }
{
    number.wrapping_sub(before)
}

/// What `difference` says of a point.
fn feed_difference(
    alloc: Global,
    spec: &FieldSpec,
    last: &mut Option<i64>,
    point: Point,
) -> Result<Said, NoMemory>
    ensures last { OnOk result (last.new ≡ latest last.old (int_at spec.now.field point)) }
    ensures said { IfOk result (λ said. said
        ≡ difference_from spec.now.name last.old (int_at spec.now.field point) point) }
{
    let Some(number) = int_at(&point, &spec.field) else {
        return Ok(Said::dropped(alloc));
    };
    let before = *last;
    *last = Some(number);
    let Some(before) = before else {
        return Ok(Said::nothing(alloc));
    };
    let change = less(number, before);
    let point = with_result(alloc, point, "difference", &spec.name, change)?;
    pass_new(alloc, point)
}

impl Rule for Difference {
    type Cell = Option<i64>;

    ghost ports = { λ r. 1 };

    ghost answer = { λ r. difference_says r.spec };

    ghost kept = { λ r. last_int r.spec };

    ghost step = { λ r. difference_step r.spec };

    ghost goes_on = { λ r. difference_goes_on r.spec };

    fn first(&self, alloc: Global) -> Option<i64> {
        let _ = alloc;
        None
    }

    fn feed(
        &mut self,
        alloc: Global,
        cell: &mut Option<i64>,
        port: u32,
        point: Shared<Point>,
    ) -> Result<Said, NoMemory> {
        let _ = port;
        let point = point.into_value(alloc)?;
        feed_difference(alloc, &self.spec, cell, point)
    }
}
