//! The two moves of a cell, on what it consists of.

ghost use Rattle.std.specs.Prelude.{◌≡◌, IsFalse, IsTrue, Ok, OnOk, false, true};
ghost use Rattle.flow_cells.specs.Kept.{Keeps};
ghost use Rattle.flow_cells.specs.Moves.{PutsNone, PutsOne, TakesNone, TakesOne};

use crate::outs::has_unsent;
use crate::parts::CellParts;
use crate::reacting::handle;
use kap_base::NoMemory;
use node_core::Node;
use std::alloc::Global;

/// Takes a message from an input into the buffer, and handles all that is then determined.
#[inline(always)]
pub(crate) fn take<N: Node>(
    alloc: Global,
    cell: &mut CellParts<N>,
    input: u32,
) -> Result<bool, NoMemory>
    requires { Keeps N.Node cell.old }
    ensures keeps { OnOk result (Keeps N.Node cell.new) }
    ensures took { result ≡ Ok true → TakesOne input cell.old cell.new }
    ensures none { result ≡ Ok false → TakesNone input cell.old cell.new }
{
    if input as usize >= cell.ins.len() {
        return Ok(false);
    }
    if has_unsent(&cell.core.outs) {
        return Ok(false);
    }
    let edge = &mut cell.ins[input as usize];
    let Some(msg) = edge.head.take() else {
        return Ok(false);
    };
    handle(alloc, &mut cell.core, &mut cell.buffer, input, msg)?;
    Ok(true)
}

/// Puts the first message that waits at an out on its edge.
#[inline(always)]
pub(crate) fn put<N: Node>(cell: &mut CellParts<N>, out: u32) -> bool
    requires { Keeps N.Node cell.old }
    ensures keeps { Keeps N.Node cell.new }
    ensures put { IsTrue result → PutsOne out cell.old cell.new }
    ensures none { IsFalse result → PutsNone out cell.old cell.new }
{
    if out as usize >= cell.core.outs.len() {
        return false;
    }
    let edge = &mut cell.core.outs[out as usize];
    edge.send()
}
