//! A net is made in the states that bytes hold.

ghost use Rattle.std.specs.Prelude.{◌≡◌, ◌<◌, ◌≤◌, ℕ, Err, IfOk, List};
ghost use Rattle.std.specs.List.{AllByRecursion as Each};
ghost use Rattle.flow_core.specs.Making.{HasFewParents};
ghost use Rattle.flow_core.specs.Rooms.{HasRoomIn};
ghost use Rattle.barrier_snapshot.specs.Captures.{IsCapture, in_lives};
ghost use Rattle.barrier_snapshot.specs.Faults.{FaultsAt};
ghost use Rattle.barrier_snapshot.specs.Restoring.{Restores};
ghost use Rattle.barrier_snapshot.specs.declared.fault.SnapFault.TheVariants.{At as at_place};

use crate::fault::SnapFault;
use crate::loading::load_capture;
use edge_queue::CAPACITY_LIMIT;
use flow_core::Net;
use kap_base::Stamp;
use node_core::Node;
use state_code::CodeFault;
use std::alloc::Global;
use task_run::LifePlan;

/// A net with a life of each plan, in their order, at rest in the states that the bytes hold, life
/// by life and node by node. It stands behind the barrier `upto`, where the nodes were in these
/// states, so that it can be captured there; its edges have room for just `capacity` messages, 1
/// to 65,536. `At` comes exactly where the bytes aren't a capture of these lives: it names the
/// place of the first byte string that isn't the state of its node, or that of the bytes behind the
/// last one, or 0 where the number of the states is another.
pub fn restore<N: Node>(
    alloc: Global,
    plans: Vec<LifePlan<N>>,
    capacity: u32,
    bytes: &[u8],
    upto: Stamp,
) -> Result<Net<N>, SnapFault>
    requires few { Each HasFewParents plans.items }
    requires some { 0 < capacity }
    requires limit { capacity ≤ CAPACITY_LIMIT }
    ensures restores { IfOk result (Restores N.Node plans.items upto bytes.now) }
    ensures room { IfOk result (λ net. Each (HasRoomIn capacity) net.lives) }
    ensures at { (offset : ℕ) (states : List N.State) → result ≡ Err (at_place offset)
        → IsCapture N.fits N.spell (in_lives N.spec plans.items) states bytes.now → ⊥ }
    ensures named { (offset : ℕ) → result ≡ Err (at_place offset)
        → FaultsAt N.fits N.spell (in_lives N.spec plans.items) bytes.now offset }
{
    let loaded = match load_capture(alloc, plans, bytes) {
        Ok(loaded) => loaded,
        Err(CodeFault::At(offset)) => return Err(SnapFault::At(offset)),
        Err(CodeFault::NoMemory) => return Err(SnapFault::NoMemory),
    };
    Ok(Net::make_behind(alloc, loaded, capacity, upto)?)
}
