//! The value of a lambda, and of conditions joined by `AND`.

ghost use Rattle.std.specs.Prelude.{◌≡◌, ◌<◌, ◌^◌, ℕ, List, IfOk, IsTrue};
ghost use Rattle.kap_base.specs.Points.{is_value, PointValue};
ghost use Rattle.kap_base.specs.Tree.{Tree};
ghost use Rattle.kap_base.specs.Words.{Answers};
ghost use Rattle.lambda_types.specs.Typed.{Need, Typed};
ghost use Rattle.lambda_types.specs.declared.types.Ty.{Ty};
ghost use Rattle.lambda_eval.specs.Soundness.{HasNeeds, HasType, IsTypedAnswer};
ghost use Rattle.lambda_eval.specs.Values.{and_value, joined_by_and, val};

use crate::comparisons::compare_field;
use crate::evaluation::evaluate;
use crate::input::Input;
use kap_base::{Point, Value};
use lambda_fns::EvalFault;
use lambda_types::Lambda;
use std::alloc::Global;

/// `value`, without what types say of it.
fn evaluate_whole(
    alloc: Global,
    lambda: &mut Lambda,
    k: u64,
    point: &Point,
) -> Result<Value, EvalFault>
    requires early { k < 2 ^ 62 }
    ensures answer { Answers EvalFault.NoMemory result (val lambda.old k point.now) }
    ensures field { IfOk result (λ v. IsTrue (is_value v)) }
    ensures kept { lambda.new ≡ lambda.old }
{
    if let Some(truth) = compare_field(lambda, point) {
        return Ok(Value::Bool(truth));
    }
    let input = Input { k, point };
    let seen = evaluate(alloc, lambda.expr.expr(), &mut lambda.patterns, &input)?;
    Ok(seen.into_value(alloc)?)
}

/// The value of a lambda at a point, or its first fault from left to right (Kapacitor 1.6 TICKscript language
/// reference: lambda expressions). A reference is the field of its name, else the tag; sums, differences and
/// products are brought into 64 bits; `OR`, `AND` and `if` evaluate only what decides. `k` is the number of
/// earlier evaluations of the lambda in the point's group, below 2^62. Whatever the answer, the lambda stays
/// as it was. The faults, each with its byte offset in the script:
///
/// - `Missing` at a reference to what is neither a field nor a tag of the point;
/// - `Kind` at an operator or the name of a function that doesn't take the type of a value that it is given;
/// - `ZeroDivisor` at a `/` or `%` whose right side is 0;
/// - `Range` at a function that has no value, or at a `+` whose text would have more than 65,536 bytes;
/// - `NoMemory` where memory ran out.
///
/// At a point that has what a typed lambda needs, each with its type, neither `Missing` nor `Kind` comes. A
/// text is made only by `+` and by functions, and copied only as a value or as a function's argument. The
/// lambda keeps what its patterns have built while they searched.
pub fn value(alloc: Global, lambda: &mut Lambda, k: u64, point: &Point) -> Result<Value, EvalFault>
    requires early { k < 2 ^ 62 }
    ensures answer { Answers EvalFault.NoMemory result (val lambda.old k point.now) }
    ensures field { IfOk result (λ v. IsTrue (is_value v)) }
    ensures typed { (ty : Ty) (needs : List Need)
        → IsTypedAnswer lambda.old ty needs point.now result }
    ensures kept { lambda.new ≡ lambda.old }
{
    evaluate_whole(alloc, lambda, k, point)
}

/// `AND`, from its left side's value; where that is false the right side isn't evaluated.
fn join_by_and(
    alloc: Global,
    left: &Value,
    right: &mut Lambda,
    at: u32,
    k: u64,
    point: &Point,
) -> Result<Value, EvalFault>
    requires early { k < 2 ^ 62 }
    ensures answer { Answers EvalFault.NoMemory result
        (and_value at (val right.old k point.now) left.now) }
    ensures field { IfOk result (λ v. IsTrue (is_value v)) }
    ensures kept { right.new ≡ right.old }
{
    match left {
        Value::Bool(false) => Ok(Value::Bool(false)),
        Value::Bool(true) => match evaluate_whole(alloc, right, k, point)? {
            Value::Bool(truth) => Ok(Value::Bool(truth)),
            _ => Err(EvalFault::Kind(at)),
        },
        _ => Err(EvalFault::Kind(at)),
    }
}

/// The value of conditions joined by `AND` in order, each `AND` at this place of the script, or its first
/// fault; true where there are none. They are evaluated in order until one isn't true, all as the evaluation
/// behind `k` earlier ones. Whatever the answer, they stay as they were. `Kind(at)` comes where there are two
/// or more and one has a value that is no truth value; other faults are those of `value`.
pub fn value_of_all(
    alloc: Global,
    lambdas: &mut [Lambda],
    at: u32,
    k: u64,
    point: &Point,
) -> Result<Value, EvalFault>
    requires early { k < 2 ^ 62 }
    ensures answer { Answers EvalFault.NoMemory result
        (val (joined_by_and at lambdas.old) k point.now) }
    ensures field { IfOk result (λ v. IsTrue (is_value v)) }
    ensures typed { (ty : Ty) (needs : List Need)
        → IsTypedAnswer (joined_by_and at lambdas.old) ty needs point.now result }
    ensures kept { lambdas.new ≡ lambdas.old }
{
    if lambdas.is_empty() {
        return Ok(Value::Bool(true));
    }
    let mut value = evaluate_whole(alloc, &mut lambdas[0], k, point)?;
    'joining: for place in 1..lambdas.len() {
        value = join_by_and(alloc, &value, &mut lambdas[place], at, k, point)?;
    }
    Ok(value)
}

/// A lambda of a type has a value of that type, or `ZeroDivisor` or `Range`, at each point that has what it
/// needs.
pub fn types_hold()
    ensures { (tree : Tree) (ty : Ty) (needs : List Need) (k : ℕ) (point : PointValue)
        → Typed tree ty needs → HasNeeds point needs → HasType ty (val tree k point) }
{}
