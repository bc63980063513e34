//! Ways in which nets come to rest.

ghost use Rattle.std.specs.Prelude.{◌≡◌, ◌/◌, ◌<◌, ◌≤◌, false, max, true, OnErr, OnOk};
ghost use Rattle.std.specs.List.{AllByRecursion as Each};
ghost use Rattle.flow_core.specs.Nets.{IsResting};
ghost use Rattle.flow_core.specs.Running.{NetGoesOn};
ghost use Rattle.flow_core.specs.Wholes.{IsWhole};
ghost use Rattle.net_run.specs.declared.moving.TheConstants.{FEW_POINTS};
ghost use Rattle.node_workers.specs.declared.TheConstants.{WORKER_LIMIT};

use flow_core::Net;
use kap_base::NoMemory;
use kap_io::Gate;
use node_core::Node;
use node_workers::{WORKER_LIMIT, work_to_rest};
use std::alloc::Global;
use std::thread::Threads;

/// How many points of an epoch of one life are worth the making of threads, where nobody says how many
/// workers there are.
pub const FEW_POINTS: usize = 512;

/// How many points of an epoch are worth it for so many lives, each of which has work of its own at each
/// point.
pub fn few_points(lives: usize) -> usize
    ensures { result ≡ FEW_POINTS / max 1 lives }
{
    FEW_POINTS / lives.max(1)
}

/// Workers in threads, and the gate that they pass before each of their turns.
#[derive(Drop)]
pub struct Workers<'a, R, G> {
    rt: &'a R,
    count: u32,
    gate: &'a G,
    least: usize,
    ghost some: { 0 < count },
    ghost limit: { count ≤ WORKER_LIMIT },
}

impl<'a, R, G> Workers<'a, R, G> {
    /// So many workers, 1 to 64. An epoch of fewer points than `least` isn't worth the making of threads, and
    /// one worker moves it.
    pub fn new(rt: &'a R, count: u32, gate: &'a G, least: usize) -> Workers<'a, R, G>
        requires some { 0 < count }
        requires limit { count ≤ WORKER_LIMIT }
    {
        Workers {
            rt,
            count,
            gate,
            least,
        }
    }

    /// How many there are.
    pub fn count(&self) -> u32
        ensures some { 0 < result }
        ensures limit { result ≤ WORKER_LIMIT }
    {
        self.count
    }

    /// What makes their threads.
    pub fn runtime(&self) -> &'a R {
        self.rt
    }

    /// The gate.
    pub fn gate(&self) -> &'a G {
        self.gate
    }

    /// How many of them work on an epoch of so many points.
    pub fn count_for(&self, points: usize) -> u32
        ensures some { 0 < result }
        ensures limit { result ≤ WORKER_LIMIT }
    {
        if points < self.least { 1 } else { self.count }
    }
}

/// A way in which nets come to rest.
#[derive(Drop)]
pub enum Way<'a, R, G> {
    /// In one thread, in the order that a number gives, which begins anew with each epoch.
    Schedule(u32),
    /// By workers, each with cells of its own.
    Workers(Workers<'a, R, G>),
}

/// Makes steps of a net that was loaded with so many points, in this way, until nothing is left to do. After
/// NoMemory the net is spent.
pub(crate) fn move_to_rest<N: Node + Send, R: Threads + Sync, G: Gate + Sync>(
    alloc: Global,
    net: &mut Net<N>,
    points: usize,
    way: &Way<'_, R, G>,
) -> Result<(), NoMemory>
    requires { net.old.spent ≡ false }
    ensures rest { OnOk result (Each IsResting net.new.lives) }
    ensures whole { OnOk result (IsWhole N.Node net.new) }
    ensures goes { OnOk result (NetGoesOn N.Node net.old net.new) }
    ensures unspent { OnOk result (net.new.spent ≡ false) }
    ensures spent { OnErr result (net.new.spent ≡ true) }
{
    match way {
        Way::Schedule(number) => net.play_by(alloc, *number),
        Way::Workers(workers) => work_to_rest(
            workers.rt,
            alloc,
            net,
            workers.count_for(points),
            workers.gate,
        ),
    }
}
