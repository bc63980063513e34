//! The store is compacted into its other log.

ghost use Rattle.std.specs.Prelude.{◌≡◌, ◌+◌, [], ℕ, false, true, IfErr, IsTrue, List, OnOk};
ghost use Rattle.kap_io.specs.Moments.{Moments};
ghost use Rattle.kap_io.specs.declared.disk.Part.TheVariants.{Head as head_part};
ghost use Rattle.gate_log.specs.Head.{IsHead};
ghost use Rattle.store_compact.specs.Staying.{staying};
ghost use Rattle.store_records.specs.declared.rec.Rec.{Rec};
ghost use Rattle.topic_store.specs.Rewriting.{other_log};
ghost use Rattle.engine_store.specs.Faults.{EngineCause, IsOfOpening};
ghost use Rattle.kap_engine.specs.Changing.{IsFailure};
ghost use Rattle.kap_engine.specs.Compacting.{stands_full_old_or_new};
ghost use Rattle.kap_engine.specs.Engines.{IsEngine};

use crate::engine::Engine;
use engine_store::EngineFault;
use kap_io::Disk;
use net_run::NumberingNode;
use node_set::ScriptNode;
use std::alloc::Global;
use store_records::Transitions;

impl<N: ScriptNode + NumberingNode + Send> Engine<N> {
    /// Writes the records of the store that stay into its other log, and lets the head name that one. The
    /// tasks, their lives, the points, the transitions and the last snapshot stay. At each moment each image
    /// of the disk stands for the records of before or for those that stay, with all transitions.
    ///
    /// `DiskFault` comes only where the disk's count of faults rose in this call, and `NoMemory` where memory
    /// ran out; `NotStore` only on a disk that doesn't tell what a read gives. Behind each of these the engine
    /// is spent.
    pub fn compact<D: Disk>(&mut self, alloc: Global, disk: &mut D) -> Result<(), EngineFault>
        requires unspent { self.old.spent ≡ false }
        ensures unspent { OnOk result (self.new.spent ≡ false) }
        ensures compacted { IsTrue D.tells → (rs : List Rec)
            → IsEngine N.Node N.planned rs (D.seen disk.old) (D.may_leave disk.old) self.old
            → OnOk result (IsEngine N.Node N.planned (staying rs)
            (D.seen disk.new) (D.may_leave disk.new) self.new) }
        ensures any_moment { IsTrue D.tells → (rs : List Rec)
            → IsEngine N.Node N.planned rs (D.seen disk.old) (D.may_leave disk.old) self.old
            → Moments D.moment D.may_leave D.left_since disk.old disk.new
            (stands_full_old_or_new N.Node N.planned rs) }
        ensures switched { IsTrue D.tells → (rs : List Rec)
            → IsEngine N.Node N.planned rs (D.seen disk.old) (D.may_leave disk.old) self.old
            → (run : ℕ) → IsHead run (D.seen disk.old head_part)
            → OnOk result (IsHead (run + 1) (D.seen disk.new head_part)) }
        ensures log { OnOk result (self.new.store.log.part ≡ other_log self.old.store.log.part) }
        ensures run { self.new.run ≡ self.old.run }
        ensures stored { OnOk result (self.new.stored ≡ []) }
        ensures failed { IsTrue D.tells → (rs : List Rec)
            → IsEngine N.Node N.planned rs (D.seen disk.old) (D.may_leave disk.old) self.old
            → IfErr result IsFailure }
        ensures faults { IfErr result IsOfOpening }
        ensures spends { IfErr result (λ _. self.new.spent ≡ true) }
        ensures cause { EngineCause (D.faults disk.old) (D.faults disk.new) result }
    {
        self.spent = true;
        if let Err(fault) = self.store.rewrite(disk) {
            return Err(EngineFault::from(fault));
        }
        self.stored = Transitions::new(alloc);
        self.spent = false;
        Ok(())
    }
}
