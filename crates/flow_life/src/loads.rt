//! A load begins on the cells of a life.

ghost use Rattle.std.specs.Prelude.{◌≡◌, length, map, IfOk, IsFalse, IsTrue, List, OnOk};
ghost use Rattle.std.specs.List.{AllByRecursion as Each, AllZip};
ghost use Rattle.kap_base.specs.declared.items.Msg.{Msg};
ghost use Rattle.flow_cells.specs.Kept.{Keeps};
ghost use Rattle.merge_node.specs.Merge.{IsClosed};
ghost use Rattle.flow_life.specs.Listing.{ends_of};
ghost use Rattle.flow_life.specs.Lives.{IsLife};
ghost use Rattle.flow_life.specs.Loads.{CanLoad, HasInputs, IsGathered, LoadsFrom, SeesSame, has_inner, plan_now};
ghost use Rattle.flow_life.specs.Nodes.{specs_of};
ghost use Rattle.flow_life.specs.Steps.{AreQuiet, moves_of};
ghost use Rattle.flow_life.specs.Streams.{CarriesPrefixes, plans_of};

use crate::marks::has_inner;
use flow_cells::Cell;
use kap_base::{Msg, NoMemory, copies};
use node_core::Node;
use std::alloc::Global;

/// Whether some cell has no inputs: the points and barriers of a load are for it.
fn has_stream<N: Node>(cells: &[Cell<N>]) -> bool
    ensures yes { IsTrue result → Each HasInputs cells.now → ⊥ }
    ensures no { IsFalse result → Each HasInputs cells.now }
{
    let Some((first, others)) = cells.split_first() else {
        return false;
    };
    if first.inputs() == 0 {
        return true;
    }
    has_stream(others)
}

/// The points and barriers for these cells: copies, where some cell has no inputs.
fn source_for<N: Node>(
    alloc: Global,
    cells: &[Cell<N>],
    source: &[Msg],
) -> Result<Vec<Msg>, NoMemory>
    ensures { IfOk result (λ own. Each (SeesSame source.now own.items) cells.now) }
{
    if !has_stream(cells) {
        return Ok(Vec::new(alloc));
    }
    copies(alloc, source)
}

/// A load begins on a cell with inputs, which has no points and barriers of its own.
fn load_child<N: Node>(alloc: Global, cell: &mut Cell<N>, keeps: bool) -> Result<(), NoMemory>
    requires ready { CanLoad cell.old }
    requires inputs { HasInputs cell.old }
    ensures keeps { OnOk result (Keeps N.Node cell.new) }
    ensures loads { OnOk result ((source : List Msg) → LoadsFrom keeps source cell.old cell.new) }
{
    cell.load(alloc, Vec::new(alloc), keeps)
}

/// A load begins on a cell without inputs: the points and barriers are its own.
fn load_stream<N: Node>(
    alloc: Global,
    cell: &mut Cell<N>,
    source: Vec<Msg>,
    keeps: bool,
) -> Result<(), NoMemory>
    requires ready { CanLoad cell.old }
    requires none { length cell.old.ins.items ≡ 0 }
    ensures keeps { OnOk result (Keeps N.Node cell.new) }
    ensures loads { OnOk result (LoadsFrom keeps source.items cell.old cell.new) }
{
    cell.load(alloc, source, keeps)
}

/// A load begins on some cells. The last one without inputs gets the points and barriers themselves, each
/// other one copies.
fn load_cells<N: Node>(
    alloc: Global,
    cells: &mut [Cell<N>],
    source: Vec<Msg>,
    keeps: bool,
) -> Result<(), NoMemory>
    requires { Each CanLoad cells.old }
    ensures keeps { OnOk result (Each (Keeps N.Node) cells.new) }
    ensures loads { OnOk result (AllZip (LoadsFrom keeps source.items) cells.old cells.new) }
{
    let Some((first, others)) = cells.split_first_mut() else {
        return Ok(());
    };
    if first.inputs() > 0 {
        load_child(alloc, first, keeps)?;
        return load_cells(alloc, others, source, keeps);
    }
    let rest = source_for(alloc, others, &source)?;
    load_stream(alloc, first, source, keeps)?;
    load_cells(alloc, others, rest, keeps)
}

/// A load begins on the cells of a life. They keep the states at barriers where some stand inside it.
pub(crate) fn load<N: Node>(
    alloc: Global,
    cells: &mut [Cell<N>],
    source: Vec<Msg>,
) -> Result<(), NoMemory>
    requires life { IsLife N.Node cells.old }
    requires rest { AreQuiet cells.old }
    requires gathered { Each IsGathered cells.old }
    requires closed { IsClosed source.items }
    ensures life { OnOk result (IsLife N.Node cells.new) }
    ensures loads { OnOk result (AllZip (LoadsFrom (has_inner source.items) source.items)
        cells.old cells.new) }
    ensures plans { OnOk result (plans_of N.Node cells.new
        ≡ map (plan_now N.Node source.items) cells.old) }
    ensures specs { OnOk result (specs_of N.Node cells.new ≡ specs_of N.Node cells.old) }
    ensures prefixes { OnOk result (CarriesPrefixes N.Node cells.new) }
    ensures ends { OnOk result (ends_of cells.new ≡ ends_of cells.old) }
    ensures count { OnOk result (moves_of cells.new ≡ 0) }
{
    let keeps = has_inner(&source);
    load_cells(alloc, cells, source, keeps)?;
    Ok(())
}
