//! Adding transitions to a store.

ghost use Rattle.std.specs.Prelude.{◌≡◌, ◌<◌, ◌≤◌, ◌∷◌, ◌++◌, ℕ, [], false, length, take, IfOk, List, IsErrOf, IsTrue, OnOk};
ghost use Rattle.kap_base.specs.Words.{HasRisen};
ghost use Rattle.kap_io.specs.Moments.{Moments};
ghost use Rattle.kap_io.specs.declared.disk.Part.{Part};
ghost use Rattle.store_kept.specs.Keeping.{AreValid};
ghost use Rattle.store_records.specs.Held.{are_next, transitions_in};
ghost use Rattle.store_records.specs.Histories.{held};
ghost use Rattle.store_records.specs.declared.rec.Rec.{Rec};
ghost use Rattle.topic_store.specs.Stores.{IsOn};
ghost use Rattle.topic_store.specs.declared.fault.StoreFault.TheVariants.{DiskFault, NotStore};
ghost use Rattle.engine_store.specs.Adding.{IsClosed, IsOnBehind, IsOver, stands_with_some};

use crate::PIECE_LIMIT;
use kap_io::Disk;
use std::alloc::Global;
use store_records::{Rec, Transitions, spelled_len};
use topic_core::Transition;
use topic_store::{Store, StoreFault};

/// How many of some transitions a record takes, which is closed as soon as its body passes `PIECE_LIMIT`: all
/// where they don't pass it.
fn piece_len(transitions: &[Transition]) -> usize
    ensures some { 0 < length transitions.now → 0 < result }
    ensures within { result ≤ length transitions.now }
    ensures closed { IsClosed (take result transitions.now) }
    ensures over { result < length transitions.now → IsOver (take result transitions.now) }
{
    let mut size = 5_u64;
    let mut count = 0_usize;
    'counting: while let Some(transition) = transitions.get(count) {
        size = size.saturating_add(spelled_len(transition));
        count += 1;
        if PIECE_LIMIT < size {
            break;
        }
    }
    count
}

/// The transitions that a record stores.
fn transitions_of(alloc: Global, rec: Rec) -> Transitions
    ensures { result ≡ transitions_in rec }
{
    match rec {
        Rec::Trans(transitions) => transitions,
        _ => Transitions::new(alloc),
    }
}

/// Adds a record of transitions, and gives these back.
fn add_piece<D: Disk>(
    alloc: Global,
    store: &mut Store,
    disk: &mut D,
    piece: Transitions,
) -> Result<Transitions, StoreFault>
    requires usable { store.old.log.spent ≡ false }
    ensures added { IsTrue D.tells → (rs : List Rec)
        → IsOn rs (D.seen disk.old) (D.may_leave disk.old) store.old
        → IsTrue (are_next (held rs).transitions piece)
        → OnOk result (IsOn (rs ++ Rec.Trans piece ∷ [])
        (D.seen disk.new) (D.may_leave disk.new) store.new) }
    ensures any_moment { IsTrue D.tells → (rs : List Rec)
        → IsOn rs (D.seen disk.old) (D.may_leave disk.old) store.old
        → IsTrue (are_next (held rs).transitions piece) → 0 < length piece → IsClosed piece
        → Moments D.moment D.may_leave D.left_since disk.old disk.new
        (stands_with_some rs piece) }
    ensures same { IfOk result (λ given. given ≡ piece) }
    ensures usable { OnOk result (store.new.log.spent ≡ false) }
    ensures valid { AreValid store.old.kept → AreValid store.new.kept }
    ensures later { D.faults disk.old ≤ D.faults disk.new }
    ensures failed { IsErrOf result DiskFault → HasRisen (D.faults disk.old) (D.faults disk.new) }
    ensures stored { (part : Part) (offset : ℕ) → IsErrOf result (NotStore part offset) → ⊥ }
{
    let rec = Rec::Trans(piece);
    match store.add(disk, &rec) {
        Ok(()) => Ok(transitions_of(alloc, rec)),
        Err(fault) => Err(fault),
    }
}

/// Adds transitions to a store, each record closed as soon as its body passes `PIECE_LIMIT`, and gives them
/// back. At each moment each image stands for the store with some of them, the first ones, and from Ok on
/// with all. Where there are none it does nothing.
pub fn add_transitions<D: Disk>(
    alloc: Global,
    store: &mut Store,
    disk: &mut D,
    due: Vec<Transition>,
) -> Result<Transitions, StoreFault>
    requires usable { store.old.log.spent ≡ false }
    ensures added { IsTrue D.tells → (rs : List Rec)
        → IsOn rs (D.seen disk.old) (D.may_leave disk.old) store.old
        → IsTrue (are_next (held rs).transitions due.items)
        → OnOk result (IsOnBehind rs due.items (D.seen disk.new) (D.may_leave disk.new) store.new) }
    ensures any_moment { IsTrue D.tells → (rs : List Rec)
        → IsOn rs (D.seen disk.old) (D.may_leave disk.old) store.old
        → IsTrue (are_next (held rs).transitions due.items)
        → Moments D.moment D.may_leave D.left_since disk.old disk.new
        (stands_with_some rs due.items) }
    ensures none { due.items ≡ [] → disk.new ≡ disk.old }
    ensures same { IfOk result (λ given. given ≡ due.items) }
    ensures usable { OnOk result (store.new.log.spent ≡ false) }
    ensures valid { AreValid store.old.kept → AreValid store.new.kept }
    ensures later { D.faults disk.old ≤ D.faults disk.new }
    ensures failed { IsErrOf result DiskFault → HasRisen (D.faults disk.old) (D.faults disk.new) }
    ensures stored { (part : Part) (offset : ℕ) → IsErrOf result (NotStore part offset) → ⊥ }
{
    let mut rest = due;
    let mut given = Vec::new(alloc);
    'adding: while 0 < rest.len() {
        let count = piece_len(&rest);
        let behind = match rest.split_off(count) {
            Ok(behind) => behind,
            Err(_) => return Err(StoreFault::NoMemory),
        };
        let added = match add_piece(alloc, store, disk, Transitions::from_items(rest)) {
            Ok(added) => added,
            Err(fault) => return Err(fault),
        };
        let mut items = added.into_items();
        if given.append(&mut items).is_err() {
            return Err(StoreFault::NoMemory);
        }
        rest = behind;
    }
    Ok(Transitions::from_items(given))
}
