//! What nodes say of a point, and what stands at one.

ghost use Rattle.std.specs.Prelude.{◌≡◌, IfOk, IsTrue};
ghost use Rattle.kap_base.specs.Texts.{is_name, is_plain};
ghost use Rattle.state_nodes.specs.Words.{int_at, result_name, with_number, with_number_alone};

use kap_base::{Duplicate, Fields, NoMemory, Point, Text, Value};
use std::alloc::Global;
use task_graph::Name;

/// The name of a result: the one that is given, or else the node's own.
pub(crate) fn result_name(alloc: Global, own: &str, given: &Option<Name>) -> Result<Text, NoMemory>
    requires { IsTrue (is_plain own.now) }
    ensures same { IfOk result (λ name. name ≡ result_name own.now given.now) }
    ensures name { IfOk result (λ name. IsTrue (is_name name)) }
{
    match given {
        Some(name) => name.text().copy(alloc),
        None => Text::from_str(alloc, own),
    }
}

/// The integer that a field holds, if it is there and holds one.
pub(crate) fn int_at(point: &Point, field: &Text) -> Option<i64>
    ensures { result ≡ int_at field.now point.now }
{
    match point.fields.get(field) {
        Some(Value::Int(number)) => Some(*number),
        Some(Value::Bool(_)) => None,
        Some(Value::Str(_)) => None,
        None => None,
    }
}

/// The point with this number among its fields, in the place of a field of that name.
pub(crate) fn with_number(mut point: Point, name: Text, number: i64) -> Result<Point, NoMemory>
    requires { IsTrue (is_name name) }
    ensures { IfOk result (λ p. p ≡ with_number name number point) }
{
    point.put_field(name, Value::Int(number))?;
    Ok(point)
}

/// The point with this number as its one field.
fn with_number_alone(
    alloc: Global,
    point: Point,
    name: Text,
    number: i64,
) -> Result<Point, NoMemory>
    requires { IsTrue (is_name name) }
    ensures { IfOk result (λ p. p ≡ with_number_alone name number point) }
{
    let mut fields = Fields::new(alloc);
    fields.insert(name, Value::Int(number))?;
    Ok(point.with_fields(fields))
}

/// The point with this number as its one field, which has the name that is given, or else the node's own.
pub(crate) fn with_result(
    alloc: Global,
    point: Point,
    own: &str,
    given: &Option<Name>,
    number: i64,
) -> Result<Point, NoMemory>
    requires { IsTrue (is_plain own.now) }
    ensures { IfOk result
        (λ p. p ≡ with_number_alone (result_name own.now given.now) number point) }
{
    let name = result_name(alloc, own, given)?;
    with_number_alone(alloc, point, name, number)
}
