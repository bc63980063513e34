//! What nodes say of a point.

ghost use Rattle.std.specs.Prelude.{◌≡◌};
ghost use Rattle.basic_nodes.specs.Words.{passed_where};

use kap_base::{Point, Shared, Value};
use node_core::{Said, pass_if};
use std::alloc::Global;

/// The point is given out where the value of a condition is true. It is dropped and counted where there is
/// none, and only dropped where it is another one.
pub(crate) fn pass_where(alloc: Global, value: Option<Value>, point: Shared<Point>) -> Said
    ensures { result ≡ passed_where value point }
{
    match value {
        Some(Value::Bool(holds)) => pass_if(alloc, holds, point),
        Some(Value::Int(_)) => Said::nothing(alloc),
        Some(Value::Str(_)) => Said::nothing(alloc),
        None => Said::dropped(alloc),
    }
}
