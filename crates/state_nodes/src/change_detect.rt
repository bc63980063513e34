ghost use Rattle.std.specs.Prelude.{◌≡◌, IfOk, OnOk, Some};
ghost use Rattle.std.specs.FinMap.{get};
ghost use Rattle.state_nodes.specs.ChangeDetects.{are_still, change_detect_goes_on, change_detect_says, change_detect_step, is_change_from, is_same, last_values, values_at};
ghost use Rattle.node_core.specs.Meaning.{passed_if};

use kap_base::{Duplicate, Fields, ItemList, NoMemory, Point, Shared, SharedText, Text, Value};
use node_core::{Rule, Said, pass};
use std::alloc::Global;
use task_graph::SharedNames;

/// What `changeDetect` does (Kapacitor 1.6: change detect node): it passes a group's first point, and each
/// one at which one of these fields has another kind or value than at the group's point before, or is at one
/// of the two alone.
#[derive(Debug, Drop)]
pub struct ChangeDetect {
    /// The fields.
    pub names: SharedNames,
}

/// What stands at the fields of a group's last point, in their order; nothing before the first point.
pub type LastValues = Option<ItemList<Option<Value>>>;

/// Whether this stands at a field still.
fn is_still(fields: &Fields, name: &Text, kept: &Option<Value>) -> bool
    ensures { result ≡ is_same kept.now (get fields.now name.now) }
{
    match fields.get(name) {
        Some(value) => match kept {
            Some(kept) => kept.is_same(value),
            None => false,
        },
        None => kept.is_none(),
    }
}

/// Whether each of these stands at its field still.
fn are_still(names: &[SharedText], values: &[Option<Value>], point: &Point) -> bool
    ensures { result ≡ are_still names.now values.now point.now }
{
    let mut names_left = names;
    let mut values_left = values;
    'comparing: while let Some((name, other_names)) = names_left.split_first() {
        let Some((value, other_values)) = values_left.split_first() else {
            return false;
        };
        if !is_still(&point.fields, name.text(), value) {
            return false;
        }
        names_left = other_names;
        values_left = other_values;
    }
    values_left.is_empty()
}

/// Whether some of the fields differ from what is kept.
fn is_change(names: &[SharedText], kept: &LastValues, point: &Point) -> bool
    ensures { result ≡ is_change_from names.now kept.now point.now }
{
    match kept {
        Some(values) => !are_still(names, values.as_slice(), point),
        None => true,
    }
}

/// What stands at a field, copied.
fn value_at(alloc: Global, fields: &Fields, name: &Text) -> Result<Option<Value>, NoMemory>
    ensures { IfOk result (λ value. value ≡ get fields.now name.now) }
{
    match fields.get(name) {
        Some(value) => Ok(Some(value.copy(alloc)?)),
        None => Ok(None),
    }
}

/// What stands at the fields, copied.
fn values_at(
    alloc: Global,
    names: &[SharedText],
    point: &Point,
) -> Result<ItemList<Option<Value>>, NoMemory>
    ensures { IfOk result (λ values. values ≡ values_at names.now point.now) }
{
    let mut values = Vec::new(alloc);
    'copying: for name in names {
        values.push(value_at(alloc, &point.fields, name.text())?)?;
    }
    Ok(ItemList::from_items(values))
}

/// What `changeDetect` says of a point. Values are copied only where some change.
fn feed_change_detect(
    alloc: Global,
    names: &[SharedText],
    kept: &mut LastValues,
    point: Shared<Point>,
) -> Result<Said, NoMemory>
    ensures kept { OnOk result (kept.new ≡ Some (values_at names.now point)) }
    ensures said { IfOk result (λ said. said
        ≡ passed_if (is_change_from names.now kept.old point) point) }
{
    if !is_change(names, kept, point.value()) {
        return Ok(Said::nothing(alloc));
    }
    *kept = Some(values_at(alloc, names, point.value())?);
    Ok(pass(alloc, point))
}

impl Rule for ChangeDetect {
    type Cell = LastValues;

    ghost ports = { λ r. 1 };

    ghost answer = { λ r. change_detect_says r.names };

    ghost kept = { λ r. last_values r.names };

    ghost step = { λ r. change_detect_step r.names };

    ghost goes_on = { λ r. change_detect_goes_on r.names };

    fn first(&self, alloc: Global) -> LastValues {
        let _ = alloc;
        None
    }

    fn feed(
        &mut self,
        alloc: Global,
        cell: &mut LastValues,
        port: u32,
        point: Shared<Point>,
    ) -> Result<Said, NoMemory> {
        let _ = port;
        feed_change_detect(alloc, self.names.as_slice(), cell, point)
    }
}
