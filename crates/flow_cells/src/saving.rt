//! The state in which a node was at the last barrier.

ghost use Rattle.std.specs.Prelude.{◌≡◌, false, true, IsFalse, IsTrue, OnErr, OnOk};
ghost use Rattle.flow_cells.specs.Kept.{HasKept, Keeps, PutsSaved, Spells};

use crate::parts::CellParts;
use kap_base::{Bytes, NoMemory};
use node_core::Node;

/// Spells the state of a node before something is fed to it: where it is the one at the last barrier, which
/// is to be kept.
pub(crate) fn keep_state<N: Node>(
    node: &N,
    saved: &mut Bytes,
    keeps: bool,
    clean: bool,
) -> Result<(), NoMemory>
    ensures spelled { OnOk result (keeps ≡ true → clean ≡ true
        → Spells N.Node (N.spec node.now) (N.state node.now) saved.new) }
    ensures same { OnOk result (clean ≡ false → saved.new ≡ saved.old) }
{
    if !keeps {
        return Ok(());
    }
    if !clean {
        return Ok(());
    }
    saved.clear();
    node.save(saved)?;
    Ok(())
}

/// Whether the state at the last barrier can be had.
pub(crate) fn has_kept<N>(cell: &CellParts<N>) -> bool
    ensures yes { IsTrue result → HasKept cell.now }
    ensures no { IsFalse result → HasKept cell.now → ⊥ }
{
    if cell.core.clean {
        return true;
    }
    cell.core.keeps
}

/// Appends the spelling of the state at the last barrier.
pub(crate) fn put_saved<N: Node>(cell: &CellParts<N>, to: &mut Bytes) -> Result<(), NoMemory>
    requires keeps { Keeps N.Node cell.now }
    requires kept { HasKept cell.now }
    ensures ok { OnOk result (PutsSaved N.Node cell.now to.old to.new) }
    ensures err { OnErr result (to.new ≡ to.old) }
{
    if cell.core.clean {
        cell.core.node.save(to)?;
        return Ok(());
    }
    to.append(cell.core.saved.as_slice())?;
    Ok(())
}
