//! Edges are settled: that of an input, and all of a life's.

ghost use Rattle.std.specs.Prelude.{◌≡◌, ◌+◌, ◌<◌, length, IfOk, IsFalse, IsTrue, OnOk};
ghost use Rattle.std.specs.List.{AllByRecursion as Each, AllZip};
ghost use Rattle.flow_cells.specs.Kept.{Keeps};
ghost use Rattle.flow_life.specs.Lives.{IsLife};
ghost use Rattle.flow_life.specs.Loose.{AreSettledTo, HasInput, HasInputs, HasLooked, IsJoined, IsLoose, KeepTo, KeepsAt};
ghost use Rattle.flow_life.specs.Nodes.{gathered_of, specs_of};
ghost use Rattle.flow_life.specs.Settling.{HasEdge, SettlesIn};
ghost use Rattle.flow_life.specs.Streams.{plans_of};
ghost use Rattle.flow_life.specs.Wired.{IsUnspent, IsWired};

use crate::making::number_of;
use flow_cells::Cell;
use kap_base::NoMemory;
use node_core::Node;

/// Shows both ends of the edge to an input, which comes from this parent, what is on it.
pub(crate) fn settle_input<N: Node>(cells: &mut [Cell<N>], child: u32, input: u32, parent: u32)
    requires edge { HasEdge child input parent cells.old }
    requires before { parent < child }
    requires within { child < length cells.old }
    ensures keeps { Each (Keeps N.Node) cells.old → Each (Keeps N.Node) cells.new }
    ensures settles { SettlesIn child input parent cells.old cells.new }
{
    let (before, rest) = cells.split_at_mut(child as usize);
    let from = &mut before[parent as usize];
    let to = &mut rest[0];
    from.settle(to, input);
}

/// Settles the edge of an input, where those before it are settled.
fn settle_one<N: Node>(cells: &mut [Cell<N>], child: u32, input: u32)
    requires joined { IsJoined cells.old }
    requires within { child < length cells.old }
    requires there { HasInput child input cells.old }
    requires settled { AreSettledTo cells.old child input }
    ensures looked { AllZip HasLooked cells.old cells.new }
    ensures settled { AreSettledTo cells.new child (input + 1) }
{
    let to = &cells[child as usize];
    let parent = to.parent(input);
    settle_input(cells, child, input, parent);
}

/// How many inputs a cell has. `NoMemory` comes where they are too many.
fn inputs_of<N: Node>(cells: &[Cell<N>], child: u32) -> Result<u32, NoMemory>
    requires { child < length cells.now }
    ensures inputs { IfOk result (λ inputs. HasInputs child inputs cells.now) }
    ensures keeps { OnOk result (Each IsUnspent cells.now → KeepsAt N.Node child cells.now) }
{
    let cell = &cells[child as usize];
    let inputs = number_of(cell.inputs())?;
    Ok(inputs)
}

/// Settles the edges of the inputs of a cell. `NoMemory` comes where they are too many.
fn settle_cell<N: Node>(cells: &mut [Cell<N>], child: u32) -> Result<(), NoMemory>
    requires joined { IsJoined cells.old }
    requires within { child < length cells.old }
    requires settled { AreSettledTo cells.old child 0 }
    ensures looked { OnOk result (AllZip HasLooked cells.old cells.new) }
    ensures settled { OnOk result (AreSettledTo cells.new (child + 1) 0) }
    ensures keeps { OnOk result (Each IsUnspent cells.old → KeepTo N.Node child cells.old
        → KeepTo N.Node (child + 1) cells.new) }
{
    let inputs = inputs_of(cells, child)?;
    'settling: for input in 0..inputs {
        settle_one(cells, child, input);
    }
    Ok(())
}

/// Settles each edge. `NoMemory` comes where the number of cells is too great.
fn settle_cells<N: Node>(cells: &mut [Cell<N>]) -> Result<(), NoMemory>
    requires joined { IsJoined cells.old }
    requires unspent { Each IsUnspent cells.old }
    ensures looked { OnOk result (AllZip HasLooked cells.old cells.new) }
    ensures wired { OnOk result (IsWired cells.new) }
    ensures keeps { OnOk result (Each (Keeps N.Node) cells.new) }
{
    let count = number_of(cells.len())?;
    'settling: for child in 0..count {
        settle_cell(cells, child)?;
    }
    Ok(())
}

/// Whether no call on a cell failed in the middle.
pub(crate) fn are_unspent<N: Node>(cells: &[Cell<N>]) -> bool
    ensures yes { IsTrue result → Each IsUnspent cells.now }
    ensures no { IsFalse result → Each IsUnspent cells.now → ⊥ }
{
    let Some((first, others)) = cells.split_first() else {
        return true;
    };
    if first.is_spent() {
        return false;
    }
    are_unspent(others)
}

/// Settles each edge of the cells of a life that moved by themselves.
pub(crate) fn settle_all<N: Node>(cells: &mut [Cell<N>]) -> Result<(), NoMemory>
    requires unspent { Each IsUnspent cells.old }
    requires loose { IsLoose N.Node cells.old }
    ensures life { OnOk result (IsLife N.Node cells.new) }
    ensures looked { OnOk result (AllZip HasLooked cells.old cells.new) }
    ensures plans { OnOk result (plans_of N.Node cells.new ≡ plans_of N.Node cells.old) }
    ensures specs { OnOk result (specs_of N.Node cells.new ≡ specs_of N.Node cells.old) }
    ensures gathered { OnOk result (gathered_of cells.new ≡ gathered_of cells.old) }
{
    settle_cells(cells)?;
    Ok(())
}
