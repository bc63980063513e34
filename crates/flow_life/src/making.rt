//! Cells are added to a life.

ghost use Rattle.std.specs.Prelude.{◌≡◌, ◌<◌, ◌≤◌, [], ◌∷◌, ◌++◌, length, map, IfOk, OnOk};
ghost use Rattle.std.specs.List.{AllByRecursion as Each};
ghost use Rattle.flow_cells.specs.Made.{HasNothing, one_or_more};
ghost use Rattle.flow_cells.specs.Rooms.{HasRoom};
ghost use Rattle.flow_cells.specs.declared.parts.InEdge.{InEdge};
ghost use Rattle.flow_life.specs.Lives.{IsLife};
ghost use Rattle.flow_life.specs.Loads.{IsGathered};
ghost use Rattle.flow_life.specs.Making.{AreBlank, HasCarriedNothing, IsClean, IsUntouched, nodes_of, passed_of};
ghost use Rattle.flow_life.specs.Steps.{AreQuiet};
ghost use Rattle.flow_life.specs.Wired.{parents_of};

use edge_queue::{CAPACITY_LIMIT, pair};
use flow_cells::{Cell, InEdge, OutEdge};
use kap_base::{NoMemory, Stamp};
use merge_node::{PARENT_LIMIT, Queue};
use node_core::Node;
use std::alloc::Global;

/// A number of 32 bits. `NoMemory` comes where it is too great.
pub(crate) fn number_of(n: usize) -> Result<u32, NoMemory>
    ensures { IfOk result (λ number. number ≡ n) }
{
    match u32::try_from(n) {
        Ok(number) => Ok(number),
        Err(_) => Err(NoMemory),
    }
}

/// Adds an edge from a cell to the one that comes next.
fn add_edge<N: Node>(
    alloc: Global,
    cells: &mut [Cell<N>],
    ins: &mut Vec<InEdge>,
    parent: u32,
    capacity: u32,
) -> Result<(), NoMemory>
    requires blank { AreBlank N.Node ins.old.items cells.old }
    requires parent { parent < length cells.old }
    requires some { 0 < capacity }
    requires limit { capacity ≤ CAPACITY_LIMIT }
    ensures blank { OnOk result (AreBlank N.Node ins.new.items cells.new) }
    ensures count { length cells.new ≡ length cells.old }
    ensures nodes { OnOk result (nodes_of cells.new ≡ nodes_of cells.old) }
    ensures parents { OnOk result (parents_of cells.new ≡ parents_of cells.old) }
    ensures passed { OnOk result (passed_of cells.new ≡ passed_of cells.old) }
    ensures from { OnOk result (map (λ (e : InEdge). e.from) ins.new.items
        ≡ map (λ (e : InEdge). e.from) ins.old.items ++ parent ∷ []) }
    ensures untouched { OnOk result (Each IsUntouched ins.old.items
        → Each IsUntouched ins.new.items) }
    ensures carried { OnOk result (Each HasCarriedNothing cells.old
        → Each HasCarriedNothing cells.new) }
    ensures room { OnOk result (Each (HasRoom capacity) cells.old
        → Each (HasRoom capacity) cells.new) }
{
    let child = number_of(cells.len())?;
    let input = number_of(ins.len())?;
    let from = &mut cells[parent as usize];
    let out = number_of(from.outs())?;
    let (tail, head) = pair(alloc, capacity)?;
    from.add_out(OutEdge {
        tail,
        unsent: Queue::new(alloc),
        child,
        input,
    })?;
    ins.push(InEdge {
        head,
        from: parent,
        out,
    })?;
    Ok(())
}

/// Adds a cell behind the others, and behind a barrier, where nothing was received since the load.
pub(crate) fn add_cell<N: Node>(
    alloc: Global,
    cells: &mut Vec<Cell<N>>,
    node: N,
    parents: &[u32],
    capacity: u32,
    passed: Stamp,
) -> Result<(), NoMemory>
    requires life { IsLife N.Node cells.old.items }
    requires nothing { Each HasNothing cells.old.items }
    requires earlier { Each (λ p. p < length cells.old.items) parents.now }
    requires parents { length parents.now ≤ PARENT_LIMIT }
    requires ports { one_or_more (length parents.now) ≤ N.ports (N.spec node) }
    requires some { 0 < capacity }
    requires limit { capacity ≤ CAPACITY_LIMIT }
    ensures life { OnOk result (IsLife N.Node cells.new.items) }
    ensures nothing { OnOk result (Each HasNothing cells.new.items) }
    ensures nodes { OnOk result (nodes_of cells.new.items ≡ nodes_of cells.old.items ++ node ∷ []) }
    ensures parents { OnOk result (parents_of cells.new.items
        ≡ parents_of cells.old.items ++ parents.now ∷ []) }
    ensures passed { OnOk result (passed_of cells.new.items
        ≡ passed_of cells.old.items ++ passed.0 ∷ []) }
    ensures rest { OnOk result (AreQuiet cells.new.items) }
    ensures gathered { OnOk result (Each IsGathered cells.new.items) }
    ensures clean { OnOk result (Each IsClean cells.new.items) }
    ensures carried { OnOk result (Each HasCarriedNothing cells.old.items
        → Each HasCarriedNothing cells.new.items) }
    ensures room { OnOk result (Each (HasRoom capacity) cells.old.items
        → Each (HasRoom capacity) cells.new.items) }
{
    let mut ins = Vec::new(alloc);
    'adding: for parent in parents {
        add_edge(alloc, cells, &mut ins, *parent, capacity)?;
    }
    let cell = Cell::new(alloc, node, ins, passed)?;
    cells.push(cell)?;
    Ok(())
}
