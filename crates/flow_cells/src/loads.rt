//! A load begins on a cell.

ghost use Rattle.std.specs.Prelude.{◌≡◌, ◌<◌, ◌≤◌, None, [], length, OnOk};
ghost use Rattle.std.specs.List.{AllByRecursion as Each, AllZip};
ghost use Rattle.merge_node.specs.Buffers.{next};
ghost use Rattle.flow_cells.specs.Handled.{Handles, Waits};
ghost use Rattle.flow_cells.specs.Kept.{IsGiven, Keeps};
ghost use Rattle.flow_cells.specs.Loads.{Begins, InLoads, IsOwn, NothingWaits, OutLoads, with_source};
ghost use Rattle.flow_cells.specs.Made.{IsFresh, IsNothing};

use crate::parts::{CellParts, Core, Gathered, InEdge, OutEdge};
use crate::reacting::handle;
use kap_base::{Msg, NoMemory};
use merge_node::MergeBuf;
use node_core::Node;
use std::alloc::Global;
use std::snapshot::Snapshot;

/// The loads of some inputs begin.
fn begin_ins(ins: &mut [InEdge])
    ensures loads { AllZip InLoads ins.old ins.new }
    ensures fresh { Each IsFresh ins.new }
{
    if let Some((first, others)) = ins.split_first_mut() {
        first.head.begin_load();
        begin_ins(others);
    }
}

/// The loads of all inputs begin.
fn load_ins(ins: &mut Vec<InEdge>)
    ensures loads { AllZip InLoads ins.old.items ins.new.items }
    ensures fresh { Each IsFresh ins.new.items }
{
    begin_ins(ins);
}

/// The loads of some outs begin.
fn begin_outs(outs: &mut [OutEdge])
    requires { Each NothingWaits outs.old }
    ensures loads { AllZip OutLoads outs.old outs.new }
    ensures given { Each (IsGiven []) outs.new }
{
    if let Some((first, others)) = outs.split_first_mut() {
        first.tail.begin_load();
        begin_outs(others);
    }
}

/// The loads of all outs begin.
fn load_outs(outs: &mut Vec<OutEdge>)
    requires { Each NothingWaits outs.old.items }
    ensures loads { AllZip OutLoads outs.old.items outs.new.items }
    ensures given { Each (IsGiven []) outs.new.items }
{
    begin_outs(outs);
}

/// Handles the points and barriers of a load one by one, as messages of the first parent.
fn handle_source<N: Node>(
    alloc: Global,
    core: &mut Core<N>,
    buffer: &mut MergeBuf,
    source: Vec<Msg>,
) -> Result<(), NoMemory>
    requires some { 0 < length buffer.old }
    requires stuck { next buffer.old ≡ None }
    requires ports { length buffer.old ≤ N.ports (N.spec core.old.node) }
    ensures outs { OnOk result (AllZip Waits core.old.outs.items core.new.outs.items) }
    ensures gathered { OnOk result (core.new.gathered ≡ core.old.gathered) }
    ensures stuck { OnOk result (next buffer.new ≡ None) }
    ensures handles { OnOk result
        (Handles N.Node core.old (with_source source.items buffer.old) core.new buffer.new) }
{
    let mut rest = source;
    rest.reverse();
    'handling: while let Some(msg) = rest.pop() {
        handle(alloc, core, buffer, 0, msg)?;
    }
    Ok(())
}

/// A load begins, with its points and barriers where the cell is a stream's, which are handled in this call.
/// Whether the state at each barrier is to be kept is said with it.
pub(crate) fn load<N: Node>(
    alloc: Global,
    cell: &mut CellParts<N>,
    source: Vec<Msg>,
    keeps: bool,
) -> Result<(), NoMemory>
    requires keeps { Keeps N.Node cell.old }
    requires empty { Each IsNothing cell.old.buffer }
    requires sent { Each NothingWaits cell.old.core.outs.items }
    requires gathered { cell.old.core.effects ≡ [] }
    requires own { IsOwn cell.old.ins.items source.items }
    ensures keeps { OnOk result (Keeps N.Node cell.new) }
    ensures begins { OnOk result (Begins source.items keeps cell.old cell.new) }
{
    load_ins(&mut cell.ins);
    load_outs(&mut cell.core.outs);
    cell.core.gathered = Gathered::Start;
    cell.core.clean = true;
    cell.core.keeps = keeps;
    cell.base = Snapshot::of(&cell.core);
    cell.source = Snapshot::of(&source);
    handle_source(alloc, &mut cell.core, &mut cell.buffer, source)?;
    Ok(())
}
