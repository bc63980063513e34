//! What stands under the lock: an engine on its disk, with its patterns.

ghost use Rattle.std.specs.Prelude.{◌≡◌};

use crate::fault::ShareFault;
use kap_base::ItemList;
use kap_http::{Ask, Reply};
use std::alloc::Global;
use topic_core::Transition;

/// An engine with its disk and its patterns, as the service speaks of it. Its disk may tell what a read gives
/// and what a crash may leave; where it does, and each of these images stands for a right store, the engine
/// is right, and its calls say what they leave of these stores.
pub trait Engine: Drop {
    ghost use Rattle.std.specs.Prelude.{◌≡◌, ◌≢◌, ℕ, ℤ, ◌+◌, ◌≤◌, ◌++◌, false, List, length, IfOk, IsErrOf, IsTrue, OnOk};
    ghost use Rattle.kap_base.specs.Points.{is_time};
    ghost use Rattle.kap_base.specs.Words.{HasRisen};
    ghost use Rattle.kap_http.specs.ReplyValues.{ReplyValue};
    ghost use Rattle.kap_http.specs.declared.ask.Ask.{Ask as AskValue};
    ghost use Rattle.kap_io.specs.declared.disk.Part.{Part};
    ghost use Rattle.topic_core.specs.declared.transition.Transition.{Transition};
    ghost use Rattle.reply_bodies.specs.Asks.{IsFailed};
    ghost use Rattle.kap_service.specs.Causes.{AreLater, HasFailed};
    ghost use Rattle.kap_service.specs.Stores.{AreBehind, HasRead, IsDecided, IsDueReply, IsMadeAgain, Reached};
    ghost use Rattle.kap_service.specs.Values.{Engines, Stores};
    ghost use Rattle.kap_service.specs.declared.fault.ShareFault.TheVariants.{DiskFault, NotStore};

    /// What it counts, and whether it is spent.
    ghost value: { Self → Engines };

    /// The disk tells its bytes and its images, and each image stands for a right store; while the engine
    /// isn't spent, it stands over that store.
    ghost right: { Self → Type 0 };

    /// An image that a crash may leave now stands for this store.
    ghost leaves: { Self → Stores → Type 0 };

    /// The reply that is due to an ask at a moment, by what the engine holds.
    ghost due: { Self → AskValue → ℤ → ReplyValue → Type 0 };

    /// Behind an ask at a moment, and this reply to it, the one engine is the other: with the change that was
    /// asked for, and whatever else the engine tells of it.
    ghost follows: { Self → AskValue → ℤ → ReplyValue → Self → Type 0 };

    /// Whether a call failed in the middle. The engine is then to be made again.
    fn spent(&self) -> bool
        ensures { result ≡ (value self.now).spent };

    /// How many changes the store has.
    fn changes(&self) -> u64
        ensures { result ≡ (value self.now).changes };

    /// How many transitions are stored.
    fn count(&self) -> u64
        ensures { right self.now → (value self.now).spent ≡ false
            → (store : Stores) → leaves self.now store → result ≡ length store.stored };

    /// The transitions that the last change on this engine stored. They are the last ones.
    fn own(&self) -> &[Transition]
        ensures own { result.now ≡ (value self.now).own }
        ensures last { right self.now → (value self.now).spent ≡ false
            → (store : Stores) → leaves self.now store
            → (before : List Transition) × (store.stored ≡ before ++ result.now) };

    /// Answers an ask: with the reply that is due, or 500 where the store failed, or 503 where memory ran
    /// out.
    fn reply(&mut self, alloc: Global, ask: &Ask, now: i64) -> Reply
        requires unspent { (value self.old).spent ≡ false }
        requires time { IsTrue (is_time now) }
        ensures due { IsDueReply (due self.old ask.now now) result }
        ensures next { follows self.old ask.now now result self.new }
        ensures usable { (IsFailed result.status → ⊥) → (value self.new).spent ≡ false }
        ensures later { AreLater (value self.old).faults (value self.new).faults }
        ensures cause { right self.old → result.status ≡ 500
            → HasFailed (value self.old).faults (value self.new).faults }
        ensures right { right self.old → right self.new }
        ensures stores { right self.old → (store : Stores) → leaves self.new store
            → Reached (leaves self.old)
            (IsDecided ask.now result.status (value self.new).own) store };

    /// Makes it again. Transitions that weren't stored yet are stored then.
    fn renew(&mut self, alloc: Global) -> Result<(), ShareFault>
        ensures usable { OnOk result ((value self.new).spent ≡ false) }
        ensures later { AreLater (value self.old).faults (value self.new).faults }
        ensures disk { IsErrOf result DiskFault
            → HasRisen (value self.old).faults.disk (value self.new).faults.disk }
        ensures patterns { right self.old → (part : Part) (offset : ℕ)
            → IsErrOf result (NotStore part offset)
            → HasRisen (value self.old).faults.patterns (value self.new).faults.patterns }
        ensures right { right self.old → right self.new }
        ensures stores { right self.old → (store : Stores) → leaves self.new store
            → Reached (leaves self.old) IsMadeAgain store };

    /// The transitions behind the first so many: as many as it likes, and none only where there are no more.
    fn transitions(&mut self, alloc: Global, after: u64) -> Result<ItemList<Transition>, ShareFault>
        requires unspent { (value self.old).spent ≡ false }
        ensures behind { right self.old → (store : Stores) → leaves self.old store
            → IfOk result (AreBehind store.stored after) }
        ensures read { HasRead value right leaves self.old self.new }
        ensures disk { IsErrOf result DiskFault
            → HasRisen (value self.old).faults.disk (value self.new).faults.disk }
        ensures told { right self.old → (part : Part) (offset : ℕ)
            → IsErrOf result (NotStore part offset) → ⊥ };

    /// Some store is left.
    ghost some: { (e : Self) → right e → (store : Stores) × leaves e store };

    /// An engine that isn't spent stands over one store, and counts its changes.
    ghost one: { (e : Self) → right e → (value e).spent ≡ false
        → (store other : Stores) → leaves e store → leaves e other → store ≡ other };

    ghost counts: { (e : Self) → right e → (value e).spent ≡ false
        → (store : Stores) → leaves e store → store.changes ≡ (value e).changes };
}
