//! What an engine tells of its store.

ghost use Rattle.std.specs.Prelude.{◌≡◌, ◌≤◌, ℕ, false, IfOk, IsErrOf, IsTrue, List};
ghost use Rattle.kap_base.specs.Words.{HasRisen};
ghost use Rattle.kap_io.specs.Moments.{Quiet};
ghost use Rattle.kap_io.specs.declared.disk.Part.{Part};
ghost use Rattle.kap_service.specs.Stores.{AreBehind};
ghost use Rattle.kap_service.specs.Values.{Stores};
ghost use Rattle.kap_service.specs.declared.fault.ShareFault.TheVariants.{DiskFault, NotStore};
ghost use Rattle.service_engine.specs.Engines.{IsRight, Leaves, changes_of, count_of, is_spent, own_of};
ghost use Rattle.store_records.specs.Histories.{held};
ghost use Rattle.store_records.specs.declared.rec.Rec.{Rec};
ghost use Rattle.topic_store.specs.Stores.{IsOn};

use crate::faults::share_fault;
use engine_store::EngineFault;
use kap_base::ItemList;
use kap_engine::Engine;
use kap_io::Disk;
use kap_service::ShareFault;
use net_run::NumberingNode;
use node_set::ScriptNode;
use topic_core::Transition;
use topic_store::Store;

/// Whether it is to be made again: it was let go, or a call on it failed in the middle.
pub(crate) fn is_spent<N: ScriptNode + NumberingNode + Send>(engine: &Option<Engine<N>>) -> bool
    ensures { result ≡ is_spent engine.now }
{
    match engine {
        Some(engine) => engine.spent(),
        None => true,
    }
}

/// How many changes its store has; none where it was let go.
pub(crate) fn changes_in<N: ScriptNode + NumberingNode + Send>(engine: &Option<Engine<N>>) -> u64
    ensures { result ≡ changes_of engine.now }
{
    match engine {
        Some(engine) => engine.store().changes(),
        None => 0,
    }
}

/// The transitions that its last change stored; none where it was let go.
pub(crate) fn own_in<N: ScriptNode + NumberingNode + Send>(
    engine: &Option<Engine<N>>,
) -> &[Transition]
    ensures { result.now ≡ own_of engine.now }
{
    match engine {
        Some(engine) => engine.stored().as_slice(),
        None => &[],
    }
}

/// How many transitions its store has; none where it was let go.
pub(crate) fn count_in<N: ScriptNode + NumberingNode + Send>(engine: &Option<Engine<N>>) -> u64
    ensures { result ≡ count_of engine.now }
{
    match engine {
        Some(engine) => engine.store().trans_count(),
        None => 0,
    }
}

/// The transitions of a store behind the first so many: 4,096, or all where there are no more. A store that
/// failed in the middle can't be read: of an engine that isn't spent none has.
fn read_store<D: Disk>(
    store: &Store,
    disk: &mut D,
    after: u64,
) -> Result<ItemList<Transition>, ShareFault>
    ensures behind { IsTrue D.tells → (rs : List Rec)
        → IsOn rs (D.seen disk.old) (D.may_leave disk.old) store.now
        → IfOk result (AreBehind (held rs).transitions after) }
    ensures quiet { IsTrue D.tells
        → Quiet D.seen D.moment D.may_leave D.left_since disk.old disk.new }
    ensures later { D.faults disk.old ≤ D.faults disk.new }
    ensures disk { IsErrOf result DiskFault → HasRisen (D.faults disk.old) (D.faults disk.new) }
    ensures told { IsTrue D.tells → (rs : List Rec)
        → IsOn rs (D.seen disk.old) (D.may_leave disk.old) store.now
        → (part : Part) (offset : ℕ) → IsErrOf result (NotStore part offset) → ⊥ }
{
    if store.spent() {
        return Err(ShareFault::NoMemory);
    }
    match store.transitions(disk, after) {
        Ok(some) => Ok(some),
        Err(fault) => Err(share_fault(EngineFault::from(fault))),
    }
}

/// The same of the store of an engine that isn't spent.
pub(crate) fn read_behind<D: Disk, N: ScriptNode + NumberingNode + Send>(
    engine: &Option<Engine<N>>,
    disk: &mut D,
    after: u64,
) -> Result<ItemList<Transition>, ShareFault>
    requires unspent { is_spent engine.now ≡ false }
    ensures behind { IsRight N.Node N.planned D.tells (D.seen disk.old) (D.may_leave disk.old)
        engine.now → (store : Stores) → Leaves (D.may_leave disk.old) store
        → IfOk result (AreBehind store.stored after) }
    ensures right { IsRight N.Node N.planned D.tells (D.seen disk.old) (D.may_leave disk.old)
        engine.now → IsRight N.Node N.planned D.tells (D.seen disk.new) (D.may_leave disk.new)
        engine.now }
    ensures stores { IsRight N.Node N.planned D.tells (D.seen disk.old) (D.may_leave disk.old)
        engine.now → (store : Stores) → Leaves (D.may_leave disk.new) store
        → Leaves (D.may_leave disk.old) store }
    ensures later { D.faults disk.old ≤ D.faults disk.new }
    ensures disk { IsErrOf result DiskFault → HasRisen (D.faults disk.old) (D.faults disk.new) }
    ensures told { IsRight N.Node N.planned D.tells (D.seen disk.old) (D.may_leave disk.old)
        engine.now → (part : Part) (offset : ℕ) → IsErrOf result (NotStore part offset) → ⊥ }
{
    match engine {
        Some(engine) => read_store(engine.store(), disk, after),
        None => unreachable!(),
    }
}
