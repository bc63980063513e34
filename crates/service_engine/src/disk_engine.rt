//! The engine that the service shares: on its disk, with its patterns.

ghost use Rattle.std.specs.Prelude.{◌≡◌, ◌<◌, ◌≤◌, ℕ, false, IfErr, IfOk, IsTrue};
ghost use Rattle.edge_queue.specs.declared.TheConstants.{CAPACITY_LIMIT};
ghost use Rattle.engine_store.specs.declared.fault.EngineFault.TheVariants.{DiskFault, NotStore};
ghost use Rattle.kap_base.specs.Words.{HasRisen};
ghost use Rattle.kap_io.specs.declared.disk.Part.{Part};
ghost use Rattle.node_workers.specs.declared.TheConstants.{WORKER_LIMIT};
ghost use Rattle.service_engine.specs.Engines.{AreRight, Follows, IsDue, IsRight, Leaves, engine_of, is_spent};
ghost use Rattle.service_engine.specs.StoreLaws.{leaves_counts, leaves_one, leaves_some};

use crate::answering::reply_by;
use crate::leave::Leave;
use crate::making::{open_by, renew_by};
use crate::reading::{changes_in, count_in, is_spent, own_in, read_behind};
use crate::ways::Ways;
use edge_queue::CAPACITY_LIMIT;
use engine_store::EngineFault;
use kap_base::ItemList;
use kap_engine::Engine;
use kap_http::{Ask, Reply};
use kap_io::Disk;
use kap_service::ShareFault;
use lambda_types::Patterns;
use node_core::Node;
use node_set::{AnyNode, ScriptNode};
use node_workers::WORKER_LIMIT;
use std::alloc::Global;
use std::thread::Threads;
use topic_core::Transition;

/// An engine on its disk, with the patterns of its scripts. Its epochs run in threads as a runtime of the kind
/// `R` starts them. Behind a reply that says that the store failed or that memory ran out the engine is let go,
/// and made again from its disk when it is asked next.
#[derive(Drop)]
pub struct DiskEngine<D: Disk + Drop, P: Patterns + Drop, R: Threads> {
    engine: Option<Engine<AnyNode>>,
    disk: D,
    pats: P,
    leave: Leave<R>,
    ways: Ways,
}

/// What is left where no engine is opened.
#[derive(Drop)]
pub struct Unopened<D: Disk + Drop, P: Patterns + Drop> {
    /// Why not.
    pub fault: EngineFault,
    /// The disk.
    pub disk: D,
    /// The patterns.
    pub pats: P,
}

impl<D: Disk + Drop, P: Patterns + Drop, R: Threads + Sync> DiskEngine<D, P, R> {
    /// Opens the store on a disk, as `Engine::make_engine` says: with so many workers, 1 to 64, and edges with
    /// room for just `capacity` messages, 1 to 65,536. A refusal gives the disk and the patterns back:
    /// `NotStore` where the disk is none of a right store, or a pattern was refused; `DiskFault` only where the
    /// disk's count of faults rose in this call; `NoMemory` where memory ran out. No other refusal comes.
    pub fn open(
        rt: &R,
        alloc: Global,
        disk: D,
        pats: P,
        workers: u32,
        capacity: u32,
    ) -> Result<DiskEngine<D, P, R>, Unopened<D, P>>
        requires some_workers { 0 < workers }
        requires few_workers { workers ≤ WORKER_LIMIT }
        requires some_room { 0 < capacity }
        requires room_limit { capacity ≤ CAPACITY_LIMIT }
        // It isn't spent, and it is right where its disk tells and each image that a crash may leave is that of a
        // right store.
        ensures unspent { IfOk result (λ e. is_spent e.engine ≡ false) }
        ensures right { IsTrue D.tells → AreRight ⟦<AnyNode as Node>⟧
            ⟦<AnyNode as ScriptNode>⟧.planned (D.may_leave disk)
            → IfOk result (λ e. IsRight ⟦<AnyNode as Node>⟧ ⟦<AnyNode as ScriptNode>⟧.planned
            D.tells (D.seen e.disk) (D.may_leave e.disk) e.engine) }
        ensures disk { IfErr result (λ left. left.fault ≡ DiskFault
            → HasRisen (D.faults disk) (D.faults left.disk)) }
        ensures patterns { IsTrue D.tells → AreRight ⟦<AnyNode as Node>⟧
            ⟦<AnyNode as ScriptNode>⟧.planned (D.may_leave disk) → IfErr result (λ left.
            (part : Part) (offset : ℕ) → left.fault ≡ NotStore part offset
            → HasRisen (P.refusals pats) (P.refusals left.pats)) }
    {
        let leave = Leave::of(rt);
        let ways = Ways { workers, capacity };
        let mut disk = disk;
        let mut pats = pats;
        match open_by::<D, P, AnyNode, Leave<R>>(&leave, alloc, &mut disk, &mut pats, ways) {
            Ok(engine) => Ok(DiskEngine {
                engine: Some(engine),
                disk,
                pats,
                leave,
                ways,
            }),
            Err(fault) => Err(Unopened { fault, disk, pats }),
        }
    }

    /// The disk and the patterns, as they are. It takes no memory.
    pub fn into_parts(self) -> (D, P)
        ensures { (result.0 ≡ self.disk) × (result.1 ≡ self.pats) }
    {
        let Self { disk, pats, .. } = self;
        (disk, pats)
    }
}

impl<D: Disk + Drop, P: Patterns + Drop, R: Threads + Sync> kap_service::Engine
    for DiskEngine<D, P, R> {
    ghost value = { λ e. engine_of e.engine (D.faults e.disk) (P.refusals e.pats) };

    ghost right = { λ e. IsRight ⟦<AnyNode as Node>⟧ ⟦<AnyNode as ScriptNode>⟧.planned
        D.tells (D.seen e.disk) (D.may_leave e.disk) e.engine };

    ghost leaves = { λ e store. Leaves (D.may_leave e.disk) store };

    ghost due = { λ e ask now reply. IsDue e.engine ask now reply };

    ghost follows = { λ e ask now reply left. Follows ⟦<AnyNode as Node>⟧
        ⟦<AnyNode as ScriptNode>⟧.planned D.tells D.seen D.moment D.may_leave D.left_since
        e.disk left.disk (P.refusals e.pats) (P.refusals left.pats) (P.refused left.pats)
        e.engine left.engine ask now reply };

    ghost some = { λ e r. leaves_some _ _ _ _ _ _ (D.reads_as e.disk r.told) r };

    ghost one = { λ e r unspent. leaves_one _ _ _ _ _ _ r unspent };

    ghost counts = { λ e r unspent. leaves_counts _ _ _ _ _ _ r unspent };

    fn spent(&self) -> bool {
        is_spent(&self.engine)
    }

    fn changes(&self) -> u64 {
        changes_in(&self.engine)
    }

    fn count(&self) -> u64 {
        count_in(&self.engine)
    }

    fn own(&self) -> &[Transition] {
        own_in(&self.engine)
    }

    fn reply(&mut self, alloc: Global, ask: &Ask, now: i64) -> Reply {
        reply_by::<D, P, AnyNode, Leave<R>>(
            &self.leave,
            alloc,
            &mut self.engine,
            &mut self.disk,
            &mut self.pats,
            ask,
            now,
        )
    }

    fn renew(&mut self, alloc: Global) -> Result<(), ShareFault> {
        renew_by::<D, P, AnyNode, Leave<R>>(
            &self.leave,
            alloc,
            &mut self.engine,
            &mut self.disk,
            &mut self.pats,
            self.ways,
        )
    }

    fn transitions(
        &mut self,
        _alloc: Global,
        after: u64,
    ) -> Result<ItemList<Transition>, ShareFault> {
        read_behind::<D, AnyNode>(&self.engine, &mut self.disk, after)
    }
}
