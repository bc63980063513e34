//! What a cell has to do.

ghost use Rattle.std.specs.Prelude.{◌≡◌, ◌↔◌, IsFalse, IsTrue};
ghost use Rattle.flow_cells.specs.Looks.{CanTake, IsQuiet, has_known};

use crate::outs::has_unsent;
use crate::parts::{CellParts, InEdge};

/// Whether a message is known on the edge of some input.
fn has_known(ins: &[InEdge]) -> bool
    ensures { result ≡ has_known ins.now }
{
    let mut rest = ins;
    'passing: while let Some((first, others)) = rest.split_first() {
        if first.head.waiting() > 0 {
            return true;
        }
        rest = others;
    }
    false
}

/// Whether a message can be taken from an input.
pub(crate) fn can_take<N>(cell: &CellParts<N>, input: u32) -> bool
    ensures yes { IsTrue result → CanTake input cell.now }
    ensures no { IsFalse result → CanTake input cell.now → ⊥ }
{
    if input as usize >= cell.ins.len() {
        return false;
    }
    if has_unsent(&cell.core.outs) {
        return false;
    }
    let edge = &cell.ins[input as usize];
    edge.head.waiting() > 0
}

/// Whether nothing waits to be sent, and nothing is known on an edge.
pub(crate) fn is_quiet<N>(cell: &CellParts<N>) -> bool
    ensures { IsTrue result ↔ IsQuiet cell.now }
{
    if has_unsent(&cell.core.outs) {
        return false;
    }
    !has_known(&cell.ins)
}
