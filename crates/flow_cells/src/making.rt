//! Cells are made, and begin a load.

ghost use Rattle.std.specs.Prelude.{◌≡◌, ◌≤◌, false, [], ◌∷◌, ◌++◌, length, IfOk, OnErr, OnOk};
ghost use Rattle.std.specs.List.{AllByRecursion as Each};
ghost use Rattle.flow_cells.specs.Kept.{Keeps};
ghost use Rattle.flow_cells.specs.Made.{HasNothing, IsFresh, IsMade, IsNothing, IsUnused, one_or_more};
ghost use Rattle.flow_cells.specs.Moves.{KeepsOthers};

use crate::parts::{CellParts, Core, Gathered, InEdge, OutEdge};
use kap_base::{Bytes, Msg, NoMemory, Stamp};
use merge_node::{MergeBuf, PARENT_LIMIT};
use node_core::{Effects, Items, Node};
use std::alloc::Global;
use std::snapshot::Snapshot;

/// For how many parents a cell with these inputs has buffers: a stream, which has none, has one for its load.
fn parents_of(ins: &[InEdge]) -> u32
    requires { length ins.now ≤ PARENT_LIMIT }
    ensures { result ≡ one_or_more (length ins.now) }
{
    if ins.is_empty() { 1 } else { ins.len() as u32 }
}

/// A node in its state, with nothing to send, behind a barrier.
fn make_core<N: Node>(alloc: Global, node: N, passed: Stamp) -> Core<N>
    ensures { IsMade N.Node passed.0 node result }
{
    Core {
        node,
        outs: Vec::new(alloc),
        given: Items::new(alloc),
        gathered: Gathered::Start,
        effects: Effects::new(alloc),
        passed,
        clean: true,
        keeps: false,
        saved: Bytes::new(alloc),
    }
}

/// A cell of a node with these inputs, behind a barrier.
pub(crate) fn make<N: Node>(
    alloc: Global,
    node: N,
    ins: Vec<InEdge>,
    passed: Stamp,
) -> Result<CellParts<N>, NoMemory>
    requires limit { length ins.items ≤ PARENT_LIMIT }
    requires fresh { Each IsFresh ins.items }
    requires ports { one_or_more (length ins.items) ≤ N.ports (N.spec node) }
    ensures keeps { IfOk result (Keeps N.Node) }
    ensures core { IfOk result (λ cell. IsMade N.Node passed.0 node cell.core) }
    ensures ins { IfOk result (λ cell. cell.ins.items ≡ ins.items) }
    ensures spent { IfOk result (λ cell. cell.spent ≡ false) }
    ensures nothing { IfOk result HasNothing }
    ensures empty { IfOk result (λ cell. Each IsNothing cell.buffer) }
    ensures base { IfOk result (λ cell. cell.base.value.node ≡ node) }
{
    let buffer = MergeBuf::new(alloc, parents_of(&ins))?;
    let core = make_core(alloc, node, passed);
    let none: Vec<Msg> = Vec::new(alloc);
    let source = Snapshot::of(&none);
    let base = Snapshot::of(&core);
    Ok(CellParts {
        core,
        buffer,
        ins,
        source,
        base,
        spent: false,
    })
}

/// An edge to a child more.
pub(crate) fn add_out<N: Node>(cell: &mut CellParts<N>, out: OutEdge) -> Result<(), NoMemory>
    requires keeps { Keeps N.Node cell.old }
    requires nothing { HasNothing cell.old }
    requires unused { IsUnused out }
    ensures keeps { Keeps N.Node cell.new }
    ensures others { KeepsOthers cell.old cell.new }
    ensures ok { OnOk result (cell.new.core.outs.items ≡ cell.old.core.outs.items ++ out ∷ []) }
    ensures err { OnErr result (cell.new.core.outs.items ≡ cell.old.core.outs.items) }
{
    cell.core.outs.push(out)?;
    Ok(())
}
