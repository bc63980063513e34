//! By how many workers an engine works, and with how much room.

ghost use Rattle.std.specs.Prelude.{◌<◌, ◌≤◌};
ghost use Rattle.edge_queue.specs.declared.TheConstants.{CAPACITY_LIMIT};
ghost use Rattle.node_workers.specs.declared.TheConstants.{WORKER_LIMIT};

use edge_queue::CAPACITY_LIMIT;
use node_workers::WORKER_LIMIT;

/// How an engine works: by so many workers, and with edges that have room for so many messages.
#[derive(Clone, Copy)]
pub(crate) struct Ways {
    pub(crate) workers: u32,
    pub(crate) capacity: u32,
    ghost some: { 0 < workers },
    ghost few: { workers ≤ WORKER_LIMIT },
    ghost room: { 0 < capacity },
    ghost limit: { capacity ≤ CAPACITY_LIMIT },
}
