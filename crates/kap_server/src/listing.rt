//! The commands that list what a store holds.

ghost use Rattle.std.specs.Prelude.{◌≡◌, ◌⊎◌, ℕ, false, IsTrue, List};
ghost use Rattle.std.specs.Io.KnownBytes.{Keeps};
ghost use Rattle.kap_base.specs.Words.{HasRisen};
ghost use Rattle.kap_io.specs.Moments.{Moments, Quiet};
ghost use Rattle.kap_io.specs.declared.disk.Part.{Part};
ghost use Rattle.store_records.specs.Histories.{held};
ghost use Rattle.store_records.specs.declared.rec.Rec.{Rec};
ghost use Rattle.topic_core.specs.Topics.{topics_after};
ghost use Rattle.topic_store.specs.Stores.{IsOn, Stands};
ghost use Rattle.store_lists.specs.Writing.{ListCause, Lists};
ghost use Rattle.engine_store.specs.Good.{IsFull, IsGood, stays_or_good};
ghost use Rattle.kap_server.specs.Exporting.{IsExportable, SayInEachLife, TellsAsReplay};
ghost use Rattle.kap_server.specs.Listing.{AreOthers, IsOfList, LeavesFull, Opens, Shows, held_whole, list_text};

use crate::laws::alerts_are_those_of_a_replay;
use crate::options::{capacity_of, no_options, workers_of};
use crate::status::Status;
use crate::words::Listing;
use kap_base::TASK_LIMIT;
use kap_engine::Engine;
use kap_io::{Disk, Gate, Sink};
use lambda_types::Patterns;
use net_run::NumberingNode;
use node_set::ScriptNode;
use std::alloc::Global;
use std::thread::Threads;
use store_lists::{
    ListFault, exports_are_read_again, write_points, write_tasks, write_topics, write_transitions,
};
use tick_compile::scripts_have_one_answer;
use topic_core::kept_laws;

/// Writes a list of what the store of an engine holds.
fn write_list<K: Sink, D: Disk, N: ScriptNode + NumberingNode + Send>(
    alloc: Global,
    listing: Listing,
    engine: &Engine<N>,
    out: &mut K,
    disk: &mut D,
) -> Result<(), ListFault>
    requires usable { engine.now.store.log.spent ≡ false }
    ensures lists { IsTrue D.tells → (rs : List Rec)
        → IsOn rs (D.seen disk.old) (D.may_leave disk.old) engine.now.store
        → engine.now.run.topics ≡ topics_after (held rs).transitions
        → Lists result (list_text listing (held rs)) (K.written out.old) (K.written out.new) }
    ensures quiet { IsTrue D.tells
        → Quiet D.seen D.moment D.may_leave D.left_since disk.old disk.new }
    ensures cause { ListCause (K.faults out.old) (K.faults out.new)
        (D.faults disk.old) (D.faults disk.new) result }
{
    match listing {
        Listing::Tasks => write_tasks(alloc, engine.store().tasks(), out),
        Listing::Topics => write_topics(alloc, engine.topics().levels(), out),
        Listing::Alerts => write_transitions(alloc, engine.store(), out, disk),
        Listing::Export => write_points(alloc, engine.store(), out, disk),
    }
}

/// Opens the store on the disk, with an engine, which stores the transitions that are missing; and writes a
/// list of what it holds then.
pub(crate) fn list<
    K: Sink,
    D: Disk,
    P: Patterns,
    N: ScriptNode + NumberingNode + Send,
    G: Gate + Sync,
    R: Threads + Sync,
>(
    rt: &R,
    alloc: Global,
    listing: Listing,
    out: &mut K,
    disk: &mut D,
    pats: &mut P,
    gate: &G,
) -> Status
    ensures shown { IsTrue D.tells → (rs : List Rec) (good : IsGood N.Node N.planned rs)
        → Stands rs (D.seen disk.old)
        → Shows (list_text listing (held_whole N.Node N.planned rs good)) result
        (K.written out.old) (K.written out.new) }
    ensures exported { IsTrue D.tells → (rs : List Rec) (good : IsGood N.Node N.planned rs)
        → Stands rs (D.seen disk.old) → listing ≡ Listing.Alerts
        → SayInEachLife N.answer N.planned → IsExportable (held rs)
        → TellsAsReplay N.answer N.planned (held rs) good.tasks result
        (K.written out.old) (K.written out.new) }
    ensures rose { IsTrue D.tells → (rs : List Rec) → IsGood N.Node N.planned rs
        → Stands rs (D.seen disk.old) → (part : Part) (offset : ℕ)
        → result ≡ Status.NotStore part offset
        → HasRisen (P.refusals pats.old) (P.refusals pats.new) }
    ensures opened { IsTrue D.tells → Opens N.Node N.planned (P.refusals pats.old)
        (P.refusals pats.new) (P.refused pats.new) (D.seen disk.old) result }
    ensures left { IsTrue D.tells → (part : Part) (offset : ℕ)
        → result ≡ Status.NotStore part offset → (Keeps (K.written out.old) (K.written out.new)
        × Quiet D.seen D.moment D.may_leave D.left_since disk.old disk.new)
        ⊎ AreOthers N.Node N.planned (D.seen disk.old) }
    ensures any_moment { IsTrue D.tells → (rs : List Rec) → IsGood N.Node N.planned rs
        → Stands rs (D.seen disk.old) → Moments D.moment D.may_leave D.left_since disk.old disk.new
        (stays_or_good N.Node N.planned rs) }
    ensures full { IsTrue D.tells → (rs : List Rec) → IsGood N.Node N.planned rs
        → Stands rs (D.seen disk.old) → result ≡ Status.Ok
        → LeavesFull N.Node N.planned rs (D.seen disk.new) (D.may_leave disk.new) }
    ensures again { IsTrue D.tells → (rs : List Rec) → IsFull N.Node N.planned rs
        → Stands rs (D.seen disk.old)
        → Quiet D.seen D.moment D.may_leave D.left_since disk.old disk.new }
    ensures ends { IsOfList result }
    ensures write_fault { result ≡ Status.WriteFault
        → HasRisen (K.faults out.old) (K.faults out.new) }
    ensures disk_fault { result ≡ Status.DiskFault
        → HasRisen (D.faults disk.old) (D.faults disk.new) }
{
    kept_laws();
    scripts_have_one_answer();
    exports_are_read_again();
    alerts_are_those_of_a_replay::<N>();
    let options = no_options();
    let workers = workers_of(options, TASK_LIMIT);
    let capacity = capacity_of(options);
    let engine: Engine<N> = match Engine::make_engine(
        rt, alloc, disk, workers, capacity, gate, pats,
    ) {
        Ok(engine) => engine,
        Err(fault) => return Status::from(fault),
    };
    match write_list(alloc, listing, &engine, out, disk) {
        Ok(()) => Status::Ok,
        Err(fault) => Status::from(fault),
    }
}
