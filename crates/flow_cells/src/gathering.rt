//! Effects are gathered from cells.

ghost use Rattle.std.specs.Prelude.{◌≡◌, [], ◌++◌, OnOk};
ghost use Rattle.flow_cells.specs.Gathers.{Gathers};
ghost use Rattle.flow_cells.specs.Kept.{Keeps, gathered};

use crate::parts::{CellParts, Gathered};
use kap_base::NoMemory;
use node_core::{Effects, Node};
use std::alloc::Global;
use std::mem;
use std::snapshot::Snapshot;

/// Has effects stand behind those that were gathered before.
fn note(before: &mut Gathered, effects: &Effects)
    ensures { gathered before.new ≡ gathered before.old ++ effects.now }
{
    let first = Snapshot::of(before);
    *before = Gathered::More(first, Snapshot::of(effects));
}

/// Takes all effects away.
fn take_all(alloc: Global, effects: &mut Effects) -> Effects
    ensures taken { result ≡ effects.old }
    ensures none { effects.new ≡ [] }
{
    mem::replace(effects, Effects::new(alloc))
}

/// Puts effects behind others, in their order.
fn push_effects(to: &mut Effects, effects: Effects) -> Result<(), NoMemory>
    ensures { OnOk result (to.new ≡ to.old ++ effects) }
{
    if to.is_empty() {
        *to = effects;
        return Ok(());
    }
    let mut rest = effects.into_items();
    rest.reverse();
    'pushing: while let Some(effect) = rest.pop() {
        to.push(effect)?;
    }
    Ok(())
}

/// Puts the effects of a cell behind others.
fn gather_all<N: Node>(
    alloc: Global,
    cell: &mut CellParts<N>,
    to: &mut Effects,
) -> Result<(), NoMemory>
    requires { Keeps N.Node cell.old }
    ensures keeps { OnOk result (Keeps N.Node cell.new) }
    ensures gathers { OnOk result (Gathers cell.old cell.new) }
    ensures given { OnOk result (to.new ≡ to.old ++ cell.old.core.effects) }
{
    note(&mut cell.core.gathered, &cell.core.effects);
    let effects = take_all(alloc, &mut cell.core.effects);
    push_effects(to, effects)?;
    Ok(())
}

/// Puts the effects of a cell behind others. One that has none stays.
pub(crate) fn gather<N: Node>(
    alloc: Global,
    cell: &mut CellParts<N>,
    to: &mut Effects,
) -> Result<(), NoMemory>
    requires { Keeps N.Node cell.old }
    ensures keeps { OnOk result (Keeps N.Node cell.new) }
    ensures gathers { OnOk result (Gathers cell.old cell.new) }
    ensures given { OnOk result (to.new ≡ to.old ++ cell.old.core.effects) }
{
    if cell.core.effects.is_empty() {
        return Ok(());
    }
    gather_all(alloc, cell, to)
}
