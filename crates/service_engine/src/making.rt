//! An engine is opened, and made again.

ghost use Rattle.std.specs.Prelude.{◌≡◌, [], false, ℕ, IfErr, IfOk, IsErrOf, IsTrue, OnOk};
ghost use Rattle.engine_store.specs.Faults.{IsOfOpening};
ghost use Rattle.engine_store.specs.declared.fault.EngineFault.TheVariants.{DiskFault as disk_failed, NotStore as not_store};
ghost use Rattle.kap_base.specs.Words.{HasRisen};
ghost use Rattle.kap_io.specs.declared.disk.Part.{Part};
ghost use Rattle.kap_service.specs.Causes.{AreLater};
ghost use Rattle.kap_service.specs.Stores.{IsMadeAgain, Reached};
ghost use Rattle.kap_service.specs.Values.{Stores};
ghost use Rattle.kap_service.specs.declared.fault.ShareFault.TheVariants.{DiskFault, NotStore};
ghost use Rattle.service_engine.specs.Engines.{AreRight, IsOver, IsRight, Leaves, faults_of, is_spent};

use crate::faults::share_fault;
use crate::ways::Ways;
use engine_store::EngineFault;
use kap_engine::Engine;
use kap_io::{Disk, NoGate};
use kap_service::ShareFault;
use lambda_types::Patterns;
use net_run::NumberingNode;
use node_set::ScriptNode;
use std::alloc::Global;
use std::thread::Threads;

/// Opens the store on a disk. Transitions that weren't stored yet are stored then.
pub(crate) fn open_by<
    D: Disk,
    P: Patterns,
    N: ScriptNode + NumberingNode + Send,
    R: Threads + Sync,
>(rt: &R, alloc: Global, disk: &mut D, pats: &mut P, ways: Ways) -> Result<Engine<N>, EngineFault>
    ensures usable { IfOk result (λ engine. engine.spent ≡ false) }
    ensures stored { IfOk result (λ engine. engine.stored ≡ []) }
    ensures later { AreLater (faults_of (D.faults disk.old) (P.refusals pats.old))
        (faults_of (D.faults disk.new) (P.refusals pats.new)) }
    ensures faults { IfErr result IsOfOpening }
    ensures disk { IsErrOf result disk_failed → HasRisen (D.faults disk.old) (D.faults disk.new) }
    ensures patterns { IsTrue D.tells → AreRight N.Node N.planned (D.may_leave disk.old)
        → (part : Part) (offset : ℕ) → IsErrOf result (not_store part offset)
        → HasRisen (P.refusals pats.old) (P.refusals pats.new) }
    ensures each { IsTrue D.tells → AreRight N.Node N.planned (D.may_leave disk.old)
        → AreRight N.Node N.planned (D.may_leave disk.new) }
    ensures over { IsTrue D.tells → AreRight N.Node N.planned (D.may_leave disk.old)
        → IfOk result (IsOver N.Node N.planned (D.seen disk.new) (D.may_leave disk.new)) }
    ensures stores { IsTrue D.tells → AreRight N.Node N.planned (D.may_leave disk.old)
        → (store : Stores) → Leaves (D.may_leave disk.new) store
        → Reached (Leaves (D.may_leave disk.old)) IsMadeAgain store }
{
    Engine::make_engine(rt, alloc, disk, ways.workers, ways.capacity, &NoGate, pats)
}

/// Lets an engine go, and makes it again from its disk: so there are never two at once.
pub(crate) fn renew_by<
    D: Disk,
    P: Patterns,
    N: ScriptNode + NumberingNode + Send,
    R: Threads + Sync,
>(
    rt: &R,
    alloc: Global,
    engine: &mut Option<Engine<N>>,
    disk: &mut D,
    pats: &mut P,
    ways: Ways,
) -> Result<(), ShareFault>
    ensures usable { OnOk result (is_spent engine.new ≡ false) }
    ensures later { AreLater (faults_of (D.faults disk.old) (P.refusals pats.old))
        (faults_of (D.faults disk.new) (P.refusals pats.new)) }
    ensures disk { IsErrOf result DiskFault → HasRisen (D.faults disk.old) (D.faults disk.new) }
    ensures patterns { IsRight N.Node N.planned D.tells (D.seen disk.old) (D.may_leave disk.old)
        engine.old → (part : Part) (offset : ℕ) → IsErrOf result (NotStore part offset)
        → HasRisen (P.refusals pats.old) (P.refusals pats.new) }
    ensures right { IsRight N.Node N.planned D.tells (D.seen disk.old) (D.may_leave disk.old)
        engine.old → IsRight N.Node N.planned D.tells (D.seen disk.new) (D.may_leave disk.new)
        engine.new }
    ensures stores { IsRight N.Node N.planned D.tells (D.seen disk.old) (D.may_leave disk.old)
        engine.old → (store : Stores) → Leaves (D.may_leave disk.new) store
        → Reached (Leaves (D.may_leave disk.old)) IsMadeAgain store }
{
    *engine = None;
    match open_by(rt, alloc, disk, pats, ways) {
        Ok(made) => {
            *engine = Some(made);
            Ok(())
        }
        Err(fault) => Err(share_fault(fault)),
    }
}
