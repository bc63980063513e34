//! The topics behind some of a store's transitions.

ghost use Rattle.std.specs.Prelude.{◌≡◌, ◌<◌, ◌≤◌, List, false, length, IfErr, IfOk, IsTrue};
ghost use Rattle.kap_io.specs.Moments.{Quiet};
ghost use Rattle.store_records.specs.Histories.{held};
ghost use Rattle.store_records.specs.declared.rec.Rec.{Rec};
ghost use Rattle.topic_store.specs.Behind.{AreBehind, TakesMoreOrNot, TopicsOrNot};
ghost use Rattle.topic_store.specs.Faults.{IsPlacedIn};
ghost use Rattle.topic_store.specs.Opening.{StoreCause};
ghost use Rattle.topic_store.specs.Stores.{IsOn};

use crate::fault::StoreFault;
use crate::store::Store;
use crate::stored::no_record;
use kap_io::Disk;
use std::alloc::Global;
use store_records::take_transitions;
use topic_core::Topics;

/// Takes the next piece of the transitions behind the first `taken` into the topics of these, up to `wanted`,
/// and tells how many are then taken.
fn take_piece<D: Disk>(
    alloc: Global,
    store: &Store,
    disk: &mut D,
    topics: &mut Topics,
    taken: u64,
    wanted: u64,
) -> Result<u64, StoreFault>
    requires usable { store.now.log.spent ≡ false }
    requires more { taken < wanted }
    ensures topics { IsTrue D.tells → (rs : List Rec)
        → IsOn rs (D.seen disk.old) (D.may_leave disk.old) store.now
        → wanted ≤ length (held rs).transitions
        → AreBehind (held rs).transitions topics.old taken
        → TakesMoreOrNot (held rs).transitions topics.new result }
    ensures rises { IfOk result (λ now. (taken < now) × (now ≤ wanted)) }
    ensures place { IfErr result (IsPlacedIn store.now.log.part) }
    ensures quiet { IsTrue D.tells
        → Quiet D.seen D.moment D.may_leave D.left_since disk.old disk.new }
    ensures cause { StoreCause (D.faults disk.old) (D.faults disk.new) result }
{
    let piece = store.transitions(disk, taken)?;
    let room = wanted - taken;
    let count = (piece.len() as u64).min(room) as usize;
    if count == 0 {
        return Err(no_record(&store.log, store.log.end()));
    }
    let first = piece.as_slice().split_at(count).0;
    let goes_on = take_transitions(alloc, topics, taken, first)?;
    if !goes_on {
        return Err(no_record(&store.log, store.log.end()));
    }
    Ok(taken + count as u64)
}

/// The topics behind the first `wanted` transitions.
pub(crate) fn topics_of_first<D: Disk>(
    alloc: Global,
    store: &Store,
    disk: &mut D,
    wanted: u64,
) -> Result<Topics, StoreFault>
    requires usable { store.now.log.spent ≡ false }
    ensures topics { IsTrue D.tells → (rs : List Rec)
        → IsOn rs (D.seen disk.old) (D.may_leave disk.old) store.now
        → wanted ≤ length (held rs).transitions
        → TopicsOrNot (held rs).transitions wanted result }
    ensures place { IfErr result (IsPlacedIn store.now.log.part) }
    ensures quiet { IsTrue D.tells
        → Quiet D.seen D.moment D.may_leave D.left_since disk.old disk.new }
    ensures cause { StoreCause (D.faults disk.old) (D.faults disk.new) result }
{
    let mut topics = Topics::new(alloc);
    let mut taken = 0;
    'taking: while taken < wanted {
        taken = take_piece(alloc, store, disk, &mut topics, taken, wanted)?;
    }
    Ok(topics)
}
