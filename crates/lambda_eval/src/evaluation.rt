//! The walk over an expression that gives its value.

ghost use Rattle.std.specs.Prelude.{◌≡◌, ◌<◌, ◌^◌, Bool, List, ℕ, true, false, Ok, IfOk, IsTrue};
ghost use Rattle.std.specs.Option.{option_copied};
ghost use Rattle.std.specs.List.{list_all};
ghost use Rattle.kap_base.specs.Points.{is_value};
ghost use Rattle.kap_base.specs.Texts.{has_line_feed};
ghost use Rattle.kap_base.specs.Tree.{tree_of, trees_of};
ghost use Rattle.kap_base.specs.Words.{Answers};
ghost use Rattle.kap_base.specs.declared.value.Value.TheVariants.{Str};
ghost use Rattle.lambda_types.specs.Functions.{function_named};
ghost use Rattle.lambda_eval.specs.Refs.{are_fit, is_fit, is_fit_lit, GivesField, GivesValue, the_value, val_at, vals_at, decided, op_value_at, call_value_at};
ghost use Rattle.lambda_eval.specs.Values.{all_values, at_name, count_value, reference_value, if_value, lit_value, has_match, only_name, part_value, pattern_in, present_value};

use crate::input::Input;
use crate::value_ref::{TextRef, ValueRef, at_name};
use kap_base::{Expr, Exprs, ItemList, Lit, Op, Point, Text, TimePart, Value};
use lambda_fns::{EvalFault, time_part};
use lambda_types::{Function, PatternList};
use std::alloc::Global;

/// A string of a lambda. One without a line feed is on one line, since each text is UTF-8.
#[tactic(auto, using(crate::proofs::TextLaws::one_line))]
fn string(text: &Text) -> ValueRef<'_>
    ensures value { the_value result ≡ Str text.now }
    ensures field { has_line_feed text.now ≡ false → IsTrue (is_value (the_value result)) }
{
    // Only a call says that the bytes of a text are UTF-8.
    let _bytes = text.bytes();
    ValueRef::Str(TextRef::Borrowed(text))
}

/// The value of a literal.
fn literal(lit: &Lit, at: u32) -> Result<ValueRef<'_>, EvalFault>
    ensures value { GivesValue result (lit_value at lit.now) }
    ensures field { (patterns : List (List ℕ))
        → IsTrue (is_fit_lit patterns lit.now) → GivesField result }
{
    match lit {
        Lit::Int(number) => Ok(ValueRef::Int(*number)),
        Lit::Bool(truth) => Ok(ValueRef::Bool(*truth)),
        Lit::Str(text) => Ok(string(text.text())),
        Lit::Dur(_) | Lit::Regex(_) => Err(EvalFault::Kind(at)),
    }
}

/// The value of a reference.
fn reference<'a>(point: &'a Point, name: &Text, at: u32) -> Result<ValueRef<'a>, EvalFault>
    ensures value { GivesValue result (reference_value at (at_name name.now point.now)) }
    ensures field { GivesField result }
{
    match at_name(point, name) {
        Some(seen) => Ok(seen),
        None => Err(EvalFault::Missing(at)),
    }
}

/// The name, where a reference is the only argument.
fn only_name(args: &Exprs) -> Option<&Text>
    ensures { option_copied result ≡ only_name (trees_of args.now) }
{
    let Exprs::More(first, rest) = args else {
        return None;
    };
    let Expr::Ref(name, _) = &**first else {
        return None;
    };
    match &**rest {
        Exprs::End => Some(name),
        Exprs::More(_, _) => None,
    }
}

/// `isPresent(ref)`.
fn present(args: &Exprs, point: &Point, at: u32) -> Result<ValueRef<'static>, EvalFault>
    ensures value { GivesValue result (present_value at (only_name (trees_of args.now)) point.now) }
    ensures field { GivesField result }
{
    match only_name(args) {
        Some(name) => Ok(ValueRef::Bool(at_name(point, name).is_some())),
        None => Err(EvalFault::Kind(at)),
    }
}

/// `count()`, where so many evaluations went before.
fn count(args: &Exprs, k: u64, at: u32) -> Result<ValueRef<'static>, EvalFault>
    requires { k < 2 ^ 62 }
    ensures value { GivesValue result (count_value at (trees_of args.now) k) }
    ensures field { GivesField result }
{
    match args {
        Exprs::End => Ok(ValueRef::Int((k + 1) as i64)),
        Exprs::More(_, _) => Err(EvalFault::Kind(at)),
    }
}

/// A function of `"time"`.
fn part_of(
    part: TimePart,
    args: &Exprs,
    point: &Point,
    at: u32,
) -> Result<ValueRef<'static>, EvalFault>
    ensures value { GivesValue result
        (part_value part at (only_name (trees_of args.now)) point.now) }
    ensures field { GivesField result }
{
    match only_name(args) {
        Some(name) if name.bytes() == b"time".as_slice() => {
            Ok(ValueRef::Int(time_part(part, point.time)?))
        }
        _ => Err(EvalFault::Kind(at)),
    }
}

/// Whether the right side, a pattern, matches in the left side, a text.
fn search(
    left: &ValueRef<'_>,
    right: &Expr,
    at: u32,
    patterns: &mut PatternList,
) -> Result<bool, EvalFault>
    requires fit { IsTrue (is_fit patterns.old (tree_of right.now)) }
    ensures found { Answers EvalFault.NoMemory result
        (has_match at (pattern_in (tree_of right.now)) (the_value left.now)) }
    ensures kept { patterns.new ≡ patterns.old }
{
    let ValueRef::Str(text) = left else {
        return Err(EvalFault::Kind(at));
    };
    let Expr::Lit(Lit::Regex(pattern), _) = right else {
        return Err(EvalFault::Kind(at));
    };
    Ok(patterns.is_match(pattern.text(), text.text().as_str()))
}

/// `OR`, which stops at a left side that is true, or `AND`, which stops at one that is false.
#[cycle(evaluation)]
fn decide<'a>(
    alloc: Global,
    stop: bool,
    left: &ValueRef<'_>,
    right: &'a Expr,
    at: u32,
    patterns: &mut PatternList,
    input: &Input<'a>,
) -> Result<ValueRef<'a>, EvalFault>
    requires fit { IsTrue (is_fit patterns.old (tree_of right.now)) }
    ensures value { GivesValue result
        (decided stop at (val_at (tree_of right.now) input.now) (the_value left.now)) }
    ensures field { GivesField result }
    ensures kept { patterns.new ≡ patterns.old }
{
    let ValueRef::Bool(left) = left else {
        return Err(EvalFault::Kind(at));
    };
    if *left == stop {
        return Ok(ValueRef::Bool(stop));
    }
    match evaluate(alloc, right, patterns, input)? {
        ValueRef::Bool(truth) => Ok(ValueRef::Bool(truth)),
        _ => Err(EvalFault::Kind(at)),
    }
}

/// An operator, where its left side has this value.
#[cycle(evaluation)]
fn join<'a>(
    alloc: Global,
    op: Op,
    left: ValueRef<'a>,
    right: &'a Expr,
    at: u32,
    patterns: &mut PatternList,
    input: &Input<'a>,
) -> Result<ValueRef<'a>, EvalFault>
    requires fit { IsTrue (is_fit patterns.old (tree_of right.now)) }
    requires field { IsTrue (is_value (the_value left)) }
    ensures value { GivesValue result
        (op_value_at op at (the_value left.entry) (tree_of right.now) input.now) }
    ensures field { GivesField result }
    ensures kept { patterns.new ≡ patterns.old }
{
    match op {
        Op::Or => decide(alloc, true, &left, right, at, patterns, input),
        Op::And => decide(alloc, false, &left, right, at, patterns, input),
        Op::Match => Ok(ValueRef::Bool(search(&left, right, at, patterns)?)),
        Op::NoMatch => Ok(ValueRef::Bool(!search(&left, right, at, patterns)?)),
        _ => {
            let right = evaluate(alloc, right, patterns, input)?;
            left.apply(alloc, op, &right, at)
        }
    }
}

/// `if(c, a, b)`.
#[cycle(evaluation)]
fn choose<'a>(
    alloc: Global,
    args: &'a Exprs,
    at: u32,
    patterns: &mut PatternList,
    input: &Input<'a>,
) -> Result<ValueRef<'a>, EvalFault>
    requires fit { IsTrue (are_fit patterns.old (trees_of args.now)) }
    ensures value { GivesValue result (if_value at (vals_at (trees_of args.now) input.now)) }
    ensures field { GivesField result }
    ensures kept { patterns.new ≡ patterns.old }
{
    let Exprs::More(test, rest) = args else {
        return Err(EvalFault::Kind(at));
    };
    let Exprs::More(first, rest) = &**rest else {
        return Err(EvalFault::Kind(at));
    };
    let Exprs::More(second, rest) = &**rest else {
        return Err(EvalFault::Kind(at));
    };
    let Exprs::End = &**rest else {
        return Err(EvalFault::Kind(at));
    };
    match evaluate(alloc, test, patterns, input)? {
        ValueRef::Bool(true) => evaluate(alloc, first, patterns, input),
        ValueRef::Bool(false) => evaluate(alloc, second, patterns, input),
        _ => Err(EvalFault::Kind(at)),
    }
}

/// The values of all, or the first fault.
#[cycle(evaluation)]
fn evaluate_all<'a>(
    alloc: Global,
    args: &'a Exprs,
    patterns: &mut PatternList,
    input: &Input<'a>,
) -> Result<ItemList<Value>, EvalFault>
    requires fit { IsTrue (are_fit patterns.old (trees_of args.now)) }
    ensures values { Answers EvalFault.NoMemory result
        (all_values (vals_at (trees_of args.now) input.now)) }
    ensures fields { IfOk result (λ values. IsTrue (list_all is_value values)) }
    ensures kept { patterns.new ≡ patterns.old }
{
    let mut values = ItemList::new(alloc);
    let mut rest = args;
    'evaluating: while let Exprs::More(first, more) = rest {
        let seen = evaluate(alloc, first, patterns, input)?;
        values.push(seen.into_value(alloc)?)?;
        rest = more;
    }
    Ok(values)
}

/// A call.
#[cycle(evaluation)]
fn call<'a>(
    alloc: Global,
    name: &Text,
    args: &'a Exprs,
    at: u32,
    patterns: &mut PatternList,
    input: &Input<'a>,
) -> Result<ValueRef<'a>, EvalFault>
    requires fit { IsTrue (are_fit patterns.old (trees_of args.now)) }
    ensures value { GivesValue result
        (call_value_at (function_named name.now) at (trees_of args.now) input.now) }
    ensures field { GivesField result }
    ensures kept { patterns.new ≡ patterns.old }
{
    let Some(function) = Function::named(name) else {
        return Err(EvalFault::Kind(at));
    };
    match function {
        Function::IsPresent => present(args, input.point, at),
        Function::If => choose(alloc, args, at, patterns, input),
        Function::Count => count(args, input.k, at),
        Function::Part(part) => part_of(part, args, input.point, at),
        Function::Of(fun) => {
            let values = evaluate_all(alloc, args, patterns, input)?;
            let value = lambda_fns::call(alloc, fun, values.as_slice(), at)?;
            Ok(ValueRef::from_value(value))
        }
    }
}

/// The value of a part of a lambda that has these patterns, or its first fault.
#[cycle(evaluation)]
pub(crate) fn evaluate<'a>(
    alloc: Global,
    expr: &'a Expr,
    patterns: &mut PatternList,
    input: &Input<'a>,
) -> Result<ValueRef<'a>, EvalFault>
    requires fit { IsTrue (is_fit patterns.old (tree_of expr.now)) }
    ensures value { GivesValue result (val_at (tree_of expr.now) input.now) }
    ensures field { GivesField result }
    ensures kept { patterns.new ≡ patterns.old }
{
    match expr {
        Expr::Lit(lit, at) => literal(lit, *at),
        Expr::Ref(name, at) => reference(input.point, name, *at),
        Expr::Name(_, at) => Err(EvalFault::Kind(*at)),
        Expr::Call(name, args, at) => call(alloc, name, args, *at, patterns, input),
        Expr::Group(inner, _) => evaluate(alloc, inner, patterns, input),
        Expr::Neg(operand, at) => {
            let seen = evaluate(alloc, operand, patterns, input)?;
            seen.negate(*at)
        }
        Expr::Not(operand, at) => {
            let seen = evaluate(alloc, operand, patterns, input)?;
            seen.invert(*at)
        }
        Expr::Bin(op, left, right, at) => {
            let left = evaluate(alloc, left, patterns, input)?;
            join(alloc, *op, left, right, *at, patterns, input)
        }
    }
}
