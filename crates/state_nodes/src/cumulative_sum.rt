ghost use Rattle.std.specs.Prelude.{◌≡◌, ◌+ℤ◌, IfOk, OnOk};
ghost use Rattle.std.specs.Int.{int_wrap, w64};
ghost use Rattle.state_nodes.specs.CumulativeSums.{cumulative_sum_goes_on, cumulative_sum_says, cumulative_sum_step, sum_behind, sum_in, summed_behind};
ghost use Rattle.state_nodes.specs.Words.{int_at};

use crate::words::{int_at, with_result};
use kap_base::{NoMemory, Point, Shared};
use node_core::{Rule, Said, pass_new};
use std::alloc::Global;
use task_graph::FieldSpec;

/// What `cumulativeSum` does (Kapacitor 1.6: cumulative sum node): a point with an integer at the field
/// becomes the sum of the group's integers up to it, brought into 64 bits. A point without one is dropped and
/// counted.
#[derive(Debug, Drop)]
pub struct CumulativeSum {
    /// The field, and the name of the result.
    pub spec: FieldSpec,
}

/// The sum, brought into 64 bits.
#[tactic(auto, using(std::proofs::lemmas::Int::wraps))]
fn plus(sum: i64, number: i64) -> i64
    ensures { result ≡ int_wrap w64 (sum +ℤ number) }
{
    sum.wrapping_add(number)
}

/// What `cumulativeSum` says of a point.
fn feed_cumulative_sum(
    alloc: Global,
    spec: &FieldSpec,
    sum: &mut i64,
    point: Point,
) -> Result<Said, NoMemory>
    ensures sum { OnOk result (sum.new ≡ sum_behind sum.old (int_at spec.now.field point)) }
    ensures said { IfOk result (λ said. said
        ≡ summed_behind spec.now.name sum.old (int_at spec.now.field point) point) }
{
    let Some(number) = int_at(&point, &spec.field) else {
        return Ok(Said::dropped(alloc));
    };
    let next = plus(*sum, number);
    *sum = next;
    let point = with_result(alloc, point, "cumulativeSum", &spec.name, next)?;
    pass_new(alloc, point)
}

impl Rule for CumulativeSum {
    type Cell = i64;

    ghost ports = { λ r. 1 };

    ghost answer = { λ r. cumulative_sum_says r.spec };

    ghost kept = { λ r. sum_in r.spec };

    ghost step = { λ r. cumulative_sum_step r.spec };

    ghost goes_on = { λ r. cumulative_sum_goes_on r.spec };

    #[tactic(auto, using(crate::specs::CumulativeSums::no_sum))]
    fn first(&self, alloc: Global) -> i64 {
        let _ = alloc;
        0
    }

    fn feed(
        &mut self,
        alloc: Global,
        cell: &mut i64,
        port: u32,
        point: Shared<Point>,
    ) -> Result<Said, NoMemory> {
        let _ = port;
        let point = point.into_value(alloc)?;
        feed_cumulative_sum(alloc, &self.spec, cell, point)
    }
}
