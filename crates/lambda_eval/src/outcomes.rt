//! What comes of an evaluation, and how often a lambda was evaluated at a group's points.

ghost use Rattle.std.specs.Prelude.{◌≡◌, ◌+◌, IfOk, IfSome, IsTrue};
ghost use Rattle.kap_base.specs.Points.{is_value};
ghost use Rattle.lambda_eval.specs.Outcomes.{value_or_none};
ghost use Rattle.lambda_eval.specs.Values.{joined_by_and, val};

use crate::limits::EVALUATION_LIMIT;
use crate::values::{value, value_of_all};
use kap_base::{NoMemory, Point, Value};
use lambda_fns::EvalFault;
use lambda_types::Lambda;
use std::alloc::Global;

/// The value of a lambda at a point, or None where it has a fault. `k` is the number of earlier evaluations
/// of the lambda in the point's group. `NoMemory` comes where memory runs out, and where `k` is
/// `EVALUATION_LIMIT` or more. Whatever the answer, the lambda stays as it was. Only a text that is the value
/// itself is copied.
pub fn outcome(
    alloc: Global,
    lambda: &mut Lambda,
    k: u64,
    point: &Point,
) -> Result<Option<Value>, NoMemory>
    ensures value { IfOk result (λ v. v ≡ value_or_none (val lambda.old k point.now)) }
    ensures field { IfOk result (λ v. IfSome v (λ x. IsTrue (is_value x))) }
    ensures kept { lambda.new ≡ lambda.old }
{
    if k >= EVALUATION_LIMIT {
        return Err(NoMemory);
    }
    match value(alloc, lambda, k, point) {
        Ok(value) => Ok(Some(value)),
        Err(EvalFault::NoMemory) => Err(NoMemory),
        Err(_) => Ok(None),
    }
}

/// The same of conditions joined by `AND` in order, true where there are none. They are evaluated in order
/// until one isn't true, all as one evaluation behind `k` earlier ones.
pub fn outcome_of_all(
    alloc: Global,
    lambdas: &mut [Lambda],
    k: u64,
    point: &Point,
) -> Result<Option<Value>, NoMemory>
    ensures value { IfOk result
        (λ v. v ≡ value_or_none (val (joined_by_and 0 lambdas.old) k point.now)) }
    ensures kept { lambdas.new ≡ lambdas.old }
{
    if k >= EVALUATION_LIMIT {
        return Err(NoMemory);
    }
    match value_of_all(alloc, lambdas, 0, k, point) {
        Ok(value) => Ok(Some(value)),
        Err(EvalFault::NoMemory) => Err(NoMemory),
        Err(_) => Ok(None),
    }
}

/// The number of evaluations behind one more.
pub fn next_count(k: u64) -> Result<u64, NoMemory>
    ensures { IfOk result (λ next. next ≡ k + 1) }
{
    match k.checked_add(1) {
        Some(next) => Ok(next),
        None => Err(NoMemory),
    }
}
