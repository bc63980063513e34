//! A net is run to its rest by workers.

ghost use Rattle.std.specs.Prelude.{◌≡◌, ◌<◌, ◌≤◌, false, true, OnErr, OnOk};
ghost use Rattle.std.specs.List.{AllByRecursion as Each, AllZip};
ghost use Rattle.flow_core.specs.Nets.{IsResting};
ghost use Rattle.flow_core.specs.Running.{NetGoesOn};
ghost use Rattle.flow_core.specs.Wholes.{IsWhole};
ghost use Rattle.node_workers.specs.Workers.{HasStoodLife};

use crate::WORKER_LIMIT;
use crate::sharing::run_workers;
use flow_core::{Cells, Net};
use kap_base::NoMemory;
use kap_io::Gate;
use node_core::Node;
use std::alloc::Global;
use std::thread::Threads;

/// Has the cells of a net moved by workers.
fn move_cells<N: Node + Send, G: Gate + Sync, R: Threads + Sync>(
    rt: &R,
    alloc: Global,
    cells: &mut Cells<N>,
    workers: u32,
    gate: &G,
)
    requires { 0 < workers }
    ensures { AllZip (HasStoodLife N.Node) cells.old.lives.items cells.new.lives.items }
{
    run_workers(rt, alloc, &mut cells.lives, workers, gate);
}

/// Makes the moves that workers left. Where they left none, no step is listed and tried.
fn finish<N: Node>(alloc: Global, net: &mut Net<N>) -> Result<(), NoMemory>
    requires { net.old.spent ≡ false }
    ensures rest { OnOk result (Each IsResting net.new.lives) }
    ensures whole { OnOk result (IsWhole N.Node net.new) }
    ensures goes { OnOk result (NetGoesOn N.Node net.old net.new) }
    ensures unspent { OnOk result (net.new.spent ≡ false) }
    ensures spent { OnErr result (net.new.spent ≡ true) }
{
    if net.at_rest() {
        return Ok(());
    }
    net.run(alloc)
}

/// Runs a net to its rest by 1 to 64 workers, in whatever order their moves come. Each worker has cells of
/// its own, which no other one has, and passes the gate before each of its turns. Workers end after a bounded
/// number of turns, and the caller makes the moves that are left; so it waits for nobody but their end, and a
/// thread that can't be made changes nothing. At rest each edge has carried its stream, and each cell is in
/// the state in which one thread alone leaves it. After NoMemory the net is spent.
pub fn work_to_rest<N: Node + Send, G: Gate + Sync, R: Threads + Sync>(
    rt: &R,
    alloc: Global,
    net: &mut Net<N>,
    workers: u32,
    gate: &G,
) -> Result<(), NoMemory>
    requires unspent { net.old.spent ≡ false }
    requires some { 0 < workers }
    requires limit { workers ≤ WORKER_LIMIT }
    ensures rest { OnOk result (Each IsResting net.new.lives) }
    ensures whole { OnOk result (IsWhole N.Node net.new) }
    ensures goes { OnOk result (NetGoesOn N.Node net.old net.new) }
    ensures unspent { OnOk result (net.new.spent ≡ false) }
    ensures spent { OnErr result (net.new.spent ≡ true) }
{
    let mut cells = net.take_cells(alloc);
    move_cells(rt, alloc, &mut cells, workers, gate);
    if !cells.are_unspent() {
        return Err(NoMemory);
    }
    net.give_cells(alloc, cells)?;
    finish(alloc, net)
}
