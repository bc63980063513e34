//! The two moves of the cells of a life.

ghost use Rattle.std.specs.Prelude.{◌≡◌, ◌+◌, IfOk, IsFalse, IsTrue, OnOk};
ghost use Rattle.std.specs.List.{AllByRecursion as Each};
ghost use Rattle.flow_life.specs.Loads.{IsGathered};
ghost use Rattle.flow_life.specs.Nodes.{gathered_of, specs_of};
ghost use Rattle.flow_life.specs.Rooms.{rooms_of};
ghost use Rattle.flow_life.specs.Settling.{Receives, Sends};
ghost use Rattle.flow_life.specs.Steps.{CanPutAt, CanTakeAt, moves_of, one_if};
ghost use Rattle.flow_life.specs.Streams.{plans_of};
ghost use Rattle.flow_life.specs.Trying.{IsGatheredBut, SameEnabled};
ghost use Rattle.flow_life.specs.Wired.{IsReady};

use crate::settling::settle_input;
use flow_cells::Cell;
use kap_base::NoMemory;
use node_core::Node;
use std::alloc::Global;

/// Has a cell put the first message that waits at an out on its edge.
pub(crate) fn put<N: Node>(cells: &mut [Cell<N>], cell: u32, out: u32) -> bool
    requires { IsReady N.Node cells.old }
    ensures ready { IsReady N.Node cells.new }
    ensures plans { plans_of N.Node cells.new ≡ plans_of N.Node cells.old }
    ensures specs { specs_of N.Node cells.new ≡ specs_of N.Node cells.old }
    ensures gathered { gathered_of cells.new ≡ gathered_of cells.old }
    ensures rooms { rooms_of cells.new ≡ rooms_of cells.old }
    ensures yes { IsTrue result → CanPutAt cells.old cell out }
    ensures no { IsFalse result → CanPutAt cells.old cell out → ⊥ }
    ensures sends { IsTrue result → Sends cell out cells.old cells.new }
    ensures count { moves_of cells.new ≡ moves_of cells.old + one_if result }
    ensures still { IsFalse result → SameEnabled cells.old cells.new }
    ensures left { Each IsGathered cells.old → Each IsGathered cells.new }
{
    if cell as usize >= cells.len() {
        return false;
    }
    let mover = &mut cells[cell as usize];
    if !mover.put(out) {
        return false;
    }
    let child = mover.child(out);
    let input = mover.child_input(out);
    settle_input(cells, child, input, cell);
    true
}

/// Has a cell take a message from an input, where one is on its edge and none waits to be sent.
pub(crate) fn take<N: Node>(
    alloc: Global,
    cells: &mut [Cell<N>],
    cell: u32,
    input: u32,
) -> Result<bool, NoMemory>
    requires { IsReady N.Node cells.old }
    ensures ready { OnOk result (IsReady N.Node cells.new) }
    ensures plans { OnOk result (plans_of N.Node cells.new ≡ plans_of N.Node cells.old) }
    ensures specs { OnOk result (specs_of N.Node cells.new ≡ specs_of N.Node cells.old) }
    ensures gathered { OnOk result (gathered_of cells.new ≡ gathered_of cells.old) }
    ensures rooms { OnOk result (rooms_of cells.new ≡ rooms_of cells.old) }
    ensures yes { IfOk result (λ made. IsTrue made → CanTakeAt cells.old cell input) }
    ensures no { IfOk result (λ made. IsFalse made → CanTakeAt cells.old cell input → ⊥) }
    ensures receives { IfOk result (λ made. IsTrue made → Receives cell input cells.old cells.new) }
    ensures count { IfOk result (λ made. moves_of cells.new ≡ moves_of cells.old + one_if made) }
    ensures still { IfOk result (λ made. IsFalse made → SameEnabled cells.old cells.new) }
    ensures left { OnOk result (Each IsGathered cells.old → IsGatheredBut cell cells.new) }
    ensures idle { IfOk result (λ made. IsFalse made
        → Each IsGathered cells.old → Each IsGathered cells.new) }
{
    if cell as usize >= cells.len() {
        return Ok(false);
    }
    let mover = &mut cells[cell as usize];
    if !mover.can_take(input) {
        return Ok(false);
    }
    let parent = mover.parent(input);
    let took = mover.take(alloc, input)?;
    settle_input(cells, cell, input, parent);
    Ok(took)
}
