//! The way in which the net of a replay comes to rest.

ghost use Rattle.std.specs.Prelude.{◌≡◌, ◌<◌, ◌≤◌, IfSome, max};
ghost use Rattle.node_workers.specs.declared.TheConstants.{WORKER_LIMIT};
ghost use Rattle.net_run.specs.declared.moving.Way.{Way};
ghost use Rattle.kap_server.specs.Options.{AreWithinLimits};

use crate::options::{ReplayOptions, workers_of};
use net_run::{Way, Workers, few_points};
use node_workers::WORKER_LIMIT;

/// So many workers, and no more than there are tasks: each has tasks of its own.
fn some_of(workers: u32, tasks: usize) -> u32
    requires some { 0 < workers }
    requires limit { workers ≤ WORKER_LIMIT }
    ensures some { 0 < result }
    ensures few { result ≤ max 1 tasks }
    ensures limit { result ≤ WORKER_LIMIT }
{
    match u32::try_from(tasks) {
        Ok(tasks) => workers.min(tasks.max(1)),
        Err(_) => workers,
    }
}

/// In how many parts tasks run this way: one for each worker. In an order that is given all run together.
pub(crate) fn parts_of<R, G>(way: &Way<'_, R, G>) -> usize
    ensures { 0 < result }
{
    match way {
        Way::Schedule(_) => 1,
        Way::Workers(workers) => workers.count() as usize,
    }
}

/// The way that the options say for so many tasks: by workers, unless they give an order.
pub(crate) fn way_of<'a, R, G>(
    rt: &'a R,
    gate: &'a G,
    options: ReplayOptions,
    tasks: usize,
) -> Way<'a, R, G>
    requires { AreWithinLimits options }
    ensures schedule { IfSome options.schedule (λ number. result ≡ Way.Schedule number) }
{
    if let Some(number) = options.schedule {
        return Way::Schedule(number);
    }
    let least = if options.workers.is_some() {
        0
    } else {
        few_points(tasks)
    };
    let workers = some_of(workers_of(options, tasks), tasks);
    Way::Workers(Workers::new(rt, workers, gate, least))
}
