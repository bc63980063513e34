//! Effects are gathered from the cells of a life.

ghost use Rattle.std.specs.Prelude.{◌≡◌, ◌<◌, ◌++◌, OnOk, length};
ghost use Rattle.std.specs.List.{AllByRecursion as Each, AllZip};
ghost use Rattle.flow_cells.specs.Gathers.{Gathers};
ghost use Rattle.flow_cells.specs.Kept.{Keeps};
ghost use Rattle.flow_life.specs.Gathers.{effects_of};
ghost use Rattle.flow_life.specs.Lives.{IsLife};
ghost use Rattle.flow_life.specs.Loads.{IsGathered};
ghost use Rattle.flow_life.specs.Nodes.{specs_of};
ghost use Rattle.flow_life.specs.Steps.{moves_of};
ghost use Rattle.flow_life.specs.Streams.{plans_of};
ghost use Rattle.flow_life.specs.Trying.{IsGatheredBut};
ghost use Rattle.flow_life.specs.Wired.{IsUnspent};

use flow_cells::Cell;
use kap_base::NoMemory;
use node_core::{Effects, Node};
use std::alloc::Global;

/// Puts the effects of each cell behind others, where they weren't gathered yet.
fn gather_cells<N: Node>(
    alloc: Global,
    cells: &mut [Cell<N>],
    to: &mut Effects,
) -> Result<(), NoMemory>
    requires { Each IsUnspent cells.old }
    ensures keeps { OnOk result (Each (Keeps N.Node) cells.new) }
    ensures gathers { OnOk result (AllZip Gathers cells.old cells.new) }
    ensures given { OnOk result (to.new ≡ to.old ++ effects_of cells.old) }
{
    if let Some((first, others)) = cells.split_first_mut() {
        first.gather(alloc, to)?;
        gather_cells(alloc, others, to)?;
    }
    Ok(())
}

/// Puts the effects of the cells of a life behind others.
pub(crate) fn gather<N: Node>(
    alloc: Global,
    cells: &mut [Cell<N>],
    to: &mut Effects,
) -> Result<(), NoMemory>
    requires { IsLife N.Node cells.old }
    ensures life { OnOk result (IsLife N.Node cells.new) }
    ensures gathers { OnOk result (AllZip Gathers cells.old cells.new) }
    ensures gathered { OnOk result (Each IsGathered cells.new) }
    ensures plans { OnOk result (plans_of N.Node cells.new ≡ plans_of N.Node cells.old) }
    ensures specs { OnOk result (specs_of N.Node cells.new ≡ specs_of N.Node cells.old) }
    ensures count { OnOk result (moves_of cells.new ≡ moves_of cells.old) }
    ensures given { OnOk result (to.new ≡ to.old ++ effects_of cells.old) }
{
    gather_cells(alloc, cells, to)?;
    Ok(())
}

/// Puts the effects of one cell behind others, where no other cell has any.
pub(crate) fn gather_from<N: Node>(
    alloc: Global,
    cells: &mut [Cell<N>],
    cell: u32,
    to: &mut Effects,
) -> Result<(), NoMemory>
    requires life { IsLife N.Node cells.old }
    requires cell { cell < length cells.old }
    requires others { IsGatheredBut cell cells.old }
    ensures life { OnOk result (IsLife N.Node cells.new) }
    ensures gathers { OnOk result (AllZip Gathers cells.old cells.new) }
    ensures gathered { OnOk result (Each IsGathered cells.new) }
    ensures plans { OnOk result (plans_of N.Node cells.new ≡ plans_of N.Node cells.old) }
    ensures specs { OnOk result (specs_of N.Node cells.new ≡ specs_of N.Node cells.old) }
    ensures count { OnOk result (moves_of cells.new ≡ moves_of cells.old) }
    ensures given { OnOk result (to.new ≡ to.old ++ effects_of cells.old) }
{
    let from = &mut cells[cell as usize];
    from.gather(alloc, to)?;
    Ok(())
}
