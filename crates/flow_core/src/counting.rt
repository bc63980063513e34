//! How many inputs the nodes of lives dropped and counted.

ghost use Rattle.std.specs.Prelude.{◌≡◌, IfOk};
ghost use Rattle.flow_core.specs.Drops.{drops_in, drops_of};

use crate::lives::Numbered;
use flow_life::Life;
use kap_base::{ItemList, NoMemory};
use node_core::Node;
use std::alloc::Global;
use task_run::Counts;

/// The count of each node of a life.
fn counts_of_life<N: Node>(alloc: Global, life: &Life<N>) -> Result<ItemList<u64>, NoMemory>
    ensures { IfOk result (λ counts. counts ≡ drops_of N.Node life.now.cells) }
{
    let mut counts = ItemList::new(alloc);
    let mut cell: u32 = 0;
    'counting: while (cell as usize) < life.cells() {
        counts.push(life.dropped(cell))?;
        let Some(next) = cell.checked_add(1) else {
            return Err(NoMemory);
        };
        cell = next;
    }
    Ok(counts)
}

/// The counts of each life.
pub(crate) fn counts_of<N: Node>(
    alloc: Global,
    lives: &[Numbered<Life<N>>],
) -> Result<Counts, NoMemory>
    ensures { IfOk result (λ counts. counts ≡ drops_in N.Node lives.now) }
{
    let mut counts = ItemList::new(alloc);
    'counting: for numbered in lives {
        counts.push(counts_of_life(alloc, &numbered.life)?)?;
    }
    Ok(counts)
}
