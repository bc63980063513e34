//! The steps of a life, in order.

ghost use Rattle.std.specs.Prelude.{◌≡◌, ◌++◌, OnOk};
ghost use Rattle.flow_life.specs.Listing.{ends_of, puts_to, steps_from, takes_to};

use crate::making::number_of;
use crate::steps::Step;
use flow_cells::Cell;
use kap_base::NoMemory;
use node_core::Node;

/// Adds the takes of a cell from so many inputs.
fn list_takes(to: &mut Vec<Step>, cell: u32, inputs: u32) -> Result<(), NoMemory>
    ensures { OnOk result (to.new.items ≡ to.old.items ++ takes_to cell inputs) }
{
    'listing: for input in 0..inputs {
        to.push(Step::Take { cell, input })?;
    }
    Ok(())
}

/// Adds the puts of a cell at so many outs.
fn list_puts(to: &mut Vec<Step>, cell: u32, outs: u32) -> Result<(), NoMemory>
    ensures { OnOk result (to.new.items ≡ to.old.items ++ puts_to cell outs) }
{
    'listing: for out in 0..outs {
        to.push(Step::Put { cell, out })?;
    }
    Ok(())
}

/// Adds the steps of cells that are numbered from here on.
pub(crate) fn list_steps<N: Node>(
    cells: &[Cell<N>],
    from: usize,
    to: &mut Vec<Step>,
) -> Result<(), NoMemory>
    ensures { OnOk result (to.new.items ≡ to.old.items ++ steps_from from (ends_of cells.now)) }
{
    let Some((first, others)) = cells.split_first() else {
        return Ok(());
    };
    let cell = number_of(from)?;
    let inputs = number_of(first.inputs())?;
    let outs = number_of(first.outs())?;
    list_takes(to, cell, inputs)?;
    list_puts(to, cell, outs)?;
    list_steps(others, cell as usize + 1, to)
}
