//! Values, each once.

ghost use Rattle.std.specs.Prelude.{◌≡◌, ◌||◌, ◌++◌, List, map, not, IfOk, IsTrue, OnOk};
ghost use Rattle.std.specs.FinMap.{get};
ghost use Rattle.std.specs.Option.{option_to_list};
ghost use Rattle.kap_base.specs.Points.{is_time};
ghost use Rattle.kap_base.specs.declared.value.Value.{Value};
ghost use Rattle.select_nodes.specs.Choices.{at_end, distinct};
ghost use Rattle.kap_base.specs.Values.{is_same_value};
ghost use Rattle.select_nodes.specs.Picks.{values_at};
ghost use Rattle.select_nodes.specs.Steps.{Told, is_seen, key_of, seen_key};

use crate::picks::Pick;
use kap_base::{Duplicate, NoMemory, Point, Shared, Text, Value};
use std::alloc::Global;
use std::collections::BTreeSet;

/// The kind of a value, its number, and the bytes of its text.
type Key<'a> = (u8, i64, &'a [u8]);

/// The key of a value: values have one key exactly where they are of one kind, and equal.
fn key_of<'a>(value: &'a Value) -> Key<'a>
    ensures { seen_key result ≡ key_of value.now }
{
    match value {
        Value::Int(number) => (0, *number, b"".as_slice()),
        Value::Bool(truth) => (1, if *truth { 1 } else { 0 }, b"".as_slice()),
        Value::Str(text) => (2, 0, text.bytes()),
    }
}

/// Whether the value didn't come before. From now on it did.
fn is_new<'a>(seen: &mut BTreeSet<Key<'a>>, value: &'a Value) -> Result<bool, NoMemory>
    ensures new { IfOk result (λ new. new ≡ not (is_seen seen.old.keys value.now)) }
    ensures seen { OnOk result ((v : Value) → is_seen seen.new.keys v
        ≡ (is_same_value v value.now || is_seen seen.old.keys v)) }
{
    Ok(seen.insert(key_of(value))?)
}

/// Takes what stands at the field of one point more.
fn tell<'a>(
    alloc: Global,
    seen: &mut BTreeSet<Key<'a>>,
    picks: &mut Vec<Pick>,
    point: &'a Point,
    field: &Text,
    tmax: i64,
) -> Result<(), NoMemory>
    requires { IsTrue (is_time tmax) }
    ensures { OnOk result ((vs : List Value) → Told tmax vs seen.old.keys picks.old.items
        → Told tmax (vs ++ option_to_list (get point.now.fields field.now)) seen.new.keys
        picks.new.items) }
{
    let Some(value) = point.fields.get(field) else {
        return Ok(());
    };
    if is_new(seen, value)? {
        let value = value.copy(alloc)?;
        picks.push(Pick { value, time: tmax })?;
    }
    Ok(())
}

/// The values at the field of points, each once, at its first place. It takes k log k steps for k points.
pub(crate) fn distinct(
    alloc: Global,
    points: &[Shared<Point>],
    field: &Text,
    tmax: i64,
) -> Result<Vec<Pick>, NoMemory>
    requires { IsTrue (is_time tmax) }
    ensures { IfOk result (λ picks. picks.items
        ≡ map (at_end tmax) (distinct (values_at field.now points.now))) }
{
    let mut seen = BTreeSet::new(alloc);
    let mut picks = Vec::new(alloc);
    'telling: for point in points {
        tell(alloc, &mut seen, &mut picks, point.value(), field, tmax)?;
    }
    Ok(picks)
}
