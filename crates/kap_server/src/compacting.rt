//! The command that compacts a store.

ghost use Rattle.std.specs.Prelude.{◌≡◌, IsTrue, List};
ghost use Rattle.kap_base.specs.Words.{HasRisen};
ghost use Rattle.kap_io.specs.Moments.{Quiet};
ghost use Rattle.store_records.specs.declared.rec.Rec.{Rec};
ghost use Rattle.topic_store.specs.Stores.{Stands};
ghost use Rattle.engine_store.specs.Good.{IsGood};
ghost use Rattle.kap_server.specs.Compacting.{Compacts, EndsCompaction, OpensToCompact};

use crate::options::{capacity_of, no_options, workers_of};
use crate::status::Status;
use kap_base::TASK_LIMIT;
use kap_engine::Engine;
use kap_io::{Disk, Gate};
use lambda_types::Patterns;
use net_run::NumberingNode;
use node_set::ScriptNode;
use std::alloc::Global;
use std::thread::Threads;

/// Opens the store on the disk, with an engine, and compacts it.
pub(crate) fn compact<
    D: Disk,
    P: Patterns,
    N: ScriptNode + NumberingNode + Send,
    G: Gate + Sync,
    R: Threads + Sync,
>(rt: &R, alloc: Global, disk: &mut D, pats: &mut P, gate: &G) -> Status
    ensures ends { EndsCompaction result }
    ensures compacted { IsTrue D.tells → (rs : List Rec) → Stands rs (D.seen disk.old)
        → IsGood N.Node N.planned rs
        → Compacts N.Node N.planned D.seen D.moment D.may_leave D.left_since rs
        (P.refusals pats.old) (P.refusals pats.new) disk.old disk.new result }
    ensures opened { IsTrue D.tells → OpensToCompact N.Node N.planned (P.refusals pats.old)
        (P.refusals pats.new) (P.refused pats.new)
        (Quiet D.seen D.moment D.may_leave D.left_since disk.old disk.new)
        (D.seen disk.old) result }
    ensures disk_fault { result ≡ Status.DiskFault
        → HasRisen (D.faults disk.old) (D.faults disk.new) }
{
    let options = no_options();
    let workers = workers_of(options, TASK_LIMIT);
    let capacity = capacity_of(options);
    let mut engine: Engine<N> = match Engine::make_engine(
        rt, alloc, disk, workers, capacity, gate, pats,
    ) {
        Ok(engine) => engine,
        Err(fault) => return Status::from(fault),
    };
    match engine.compact(alloc, disk) {
        Ok(()) => Status::Ok,
        Err(fault) => Status::from(fault),
    }
}
