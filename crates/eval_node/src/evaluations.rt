//! The lambdas of an `eval` at a point.

ghost use Rattle.std.specs.Prelude.{◌≡◌, IfOk, OnOk, option_map};
ghost use Rattle.lambda_eval.specs.Outcomes.{value_or_none};
ghost use Rattle.lambda_eval.specs.Values.{val};
ghost use Rattle.eval_node.specs.Evaluations.{evaluated, with_result};

use crate::counts::{count_at, put_count};
use kap_base::{Duplicate, NoMemory, Point};
use lambda_eval::{next_count, outcome};
use lambda_types::Lambda;
use std::alloc::Global;
use task_graph::EvalResult;

/// The point with the result of a lambda that was evaluated `k` times before in its group, or nothing where
/// it has a fault.
fn add_result(
    alloc: Global,
    due: &mut EvalResult<Lambda>,
    k: u64,
    mut point: Point,
) -> Result<Option<Point>, NoMemory>
    ensures kept { due.new ≡ due.old }
    ensures point { IfOk result (λ p. p ≡ option_map (λ v. with_result due.old.name v point)
        (value_or_none (val due.old.lambda k point))) }
{
    match outcome(alloc, &mut due.lambda, k, &point)? {
        Some(value) => {
            point.put_field(due.name.text().copy(alloc)?, value)?;
            Ok(Some(point))
        }
        None => Ok(None),
    }
}

/// Evaluates lambdas in order, each of which sees the results before it, until one has a fault: the point
/// with all results, or nothing. Each evaluation is counted.
pub(crate) fn evaluate(
    alloc: Global,
    results: &mut [EvalResult<Lambda>],
    numbers: &mut Vec<u64>,
    point: Point,
) -> Result<Option<Point>, NoMemory>
    ensures kept { results.new ≡ results.old }
    ensures counts { OnOk result
        (numbers.new.items ≡ (evaluated results.old numbers.old.items point).counts) }
    ensures point { IfOk result
        (λ p. p ≡ (evaluated results.old numbers.old.items point).point) }
{
    let mut seen = point;
    'evaluating: for place in 0..results.len() {
        let k = count_at(numbers, place);
        put_count(numbers, place, next_count(k)?)?;
        match add_result(alloc, &mut results[place], k, seen)? {
            Some(next) => seen = next,
            None => return Ok(None),
        }
    }
    Ok(Some(seen))
}
