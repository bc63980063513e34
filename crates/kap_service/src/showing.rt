//! What was stored and isn't on the board yet is posted and published.

ghost use Rattle.std.specs.Prelude.{◌≡◌, ◌+◌, ◌++◌, ◌<◌, ℕ, [], Err, false, length, take, IfErr, IsErrOf, MatchBool, OnErr, OnOk};
ghost use mathlib.Core.List.{IsPrefix};
ghost use Rattle.kap_base.specs.Words.{HasRisen};
ghost use Rattle.kap_io.specs.declared.disk.Part.{Part};
ghost use Rattle.kap_service.specs.Kept.{posted};
ghost use Rattle.kap_service.specs.Stores.{HasRead, IsAlmostPosted};
ghost use Rattle.kap_service.specs.Values.{Stores};
ghost use Rattle.kap_service.specs.declared.fault.ShareFault.TheVariants.{DiskFault, NoMemory as no_memory, NotStore};

use crate::engine::Engine;
use crate::fault::ShareFault;
use kap_base::NoMemory;
use std::alloc::Global;
use std::sync::Wait;
use topic_board::{Naming, Poster, Shown};
use topic_core::Transition;

fn is_none(some: &[Transition]) -> bool
    ensures { MatchBool result (some.now ≡ []) (0 < length some.now) }
{
    some.is_empty()
}

/// Posts these, one after the other.
fn post_all<J: Naming, O: Drop, T: Shown<J, O>, R: Wait + Drop>(
    alloc: Global,
    poster: &mut Poster<J, O, T, R>,
    some: &[Transition],
) -> Result<(), NoMemory>
    ensures published { poster.new.published ≡ poster.old.published }
    ensures ok { OnOk result (poster.new.pending ≡ poster.old.pending ++ some.now) }
    ensures err { OnErr result ((n : ℕ)
        × (poster.new.pending ≡ poster.old.pending ++ take n some.now)) }
{
    'posting: for t in some {
        poster.post(alloc, t)?;
    }
    Ok(())
}

/// Posts all that is stored, so many transitions, and wasn't posted, by reading it.
fn post_stored<E: Engine, J: Naming, O: Drop, T: Shown<J, O>, R: Wait + Drop>(
    alloc: Global,
    engine: &mut E,
    poster: &mut Poster<J, O, T, R>,
    total: u64,
) -> Result<(), ShareFault>
    requires unspent { (E.value engine.old).spent ≡ false }
    ensures read { HasRead E.value E.right E.leaves engine.old engine.new }
    ensures begun { E.right engine.old → (store : Stores) → E.leaves engine.old store
        → IsPrefix (posted poster.old) store.stored → IsPrefix (posted poster.new) store.stored }
    ensures ok { E.right engine.old → (store : Stores) → E.leaves engine.old store
        → total ≡ length store.stored → IsPrefix (posted poster.old) store.stored
        → OnOk result (posted poster.new ≡ store.stored) }
    ensures disk { IsErrOf result DiskFault
        → HasRisen (E.value engine.old).faults.disk (E.value engine.new).faults.disk }
    ensures told { E.right engine.old → (part : Part) (offset : ℕ)
        → IsErrOf result (NotStore part offset) → ⊥ }
{
    'reading: loop {
        let count = poster.count();
        if total <= count {
            return Ok(());
        }
        let some = engine.transitions(alloc, count)?;
        if is_none(some.as_slice()) {
            return Ok(());
        }
        post_all(alloc, poster, some.as_slice())?;
    }
}

/// Posts all that is stored and wasn't posted. Where only what the last change stored is missing, nothing is
/// read.
pub(crate) fn post_missing<E: Engine, J: Naming, O: Drop, T: Shown<J, O>, R: Wait + Drop>(
    alloc: Global,
    engine: &mut E,
    poster: &mut Poster<J, O, T, R>,
) -> Result<(), ShareFault>
    requires unspent { (E.value engine.old).spent ≡ false }
    ensures read { HasRead E.value E.right E.leaves engine.old engine.new }
    ensures begun { E.right engine.old → (store : Stores) → E.leaves engine.old store
        → IsPrefix (posted poster.old) store.stored → IsPrefix (posted poster.new) store.stored }
    ensures ok { E.right engine.old → (store : Stores) → E.leaves engine.old store
        → IsPrefix (posted poster.old) store.stored
        → OnOk result (posted poster.new ≡ store.stored) }
    ensures almost { E.right engine.old → (store : Stores) → E.leaves engine.old store
        → IsAlmostPosted (posted poster.old) (E.value engine.old).own store.stored
        → IfErr result (λ fault. fault ≡ no_memory) }
    ensures disk { IsErrOf result DiskFault
        → HasRisen (E.value engine.old).faults.disk (E.value engine.new).faults.disk }
    ensures told { E.right engine.old → (part : Part) (offset : ℕ)
        → IsErrOf result (NotStore part offset) → ⊥ }
{
    let total = engine.count();
    let count = poster.count();
    if count == total {
        return Ok(());
    }
    let own = engine.own();
    let len = own.len() as u64;
    if len <= total && count == total - len {
        post_all(alloc, poster, own)?;
        return Ok(());
    }
    post_stored(alloc, engine, poster, total)
}

/// Posts what is missing, but where the engine is spent. Whether memory was wanted.
fn post_unless_spent<E: Engine, J: Naming, O: Drop, T: Shown<J, O>, R: Wait + Drop>(
    alloc: Global,
    engine: &mut E,
    poster: &mut Poster<J, O, T, R>,
) -> bool
    ensures read { HasRead E.value E.right E.leaves engine.old engine.new }
    ensures begun { E.right engine.old → (store : Stores) → E.leaves engine.old store
        → IsPrefix (posted poster.old) store.stored → IsPrefix (posted poster.new) store.stored }
    ensures whole { result ≡ false → (E.value engine.old).spent ≡ false → E.right engine.old
        → (store : Stores) → E.leaves engine.old store
        → IsPrefix (posted poster.old) store.stored
        → IsAlmostPosted (posted poster.old) (E.value engine.old).own store.stored
        → posted poster.new ≡ store.stored }
{
    if engine.spent() {
        return false;
    }
    match post_missing(alloc, engine, poster) {
        Ok(()) => false,
        Err(fault) => fault == ShareFault::NoMemory,
    }
}

/// Posts what is stored and wasn't posted, but where the engine is spent, and publishes what was posted.
/// Whether memory was wanted; where it wasn't, nothing is pending.
pub(crate) fn show<E: Engine, J: Naming, O: Drop, T: Shown<J, O>, R: Wait + Drop>(
    alloc: Global,
    engine: &mut E,
    poster: &mut Poster<J, O, T, R>,
) -> bool
    ensures read { HasRead E.value E.right E.leaves engine.old engine.new }
    ensures begun { E.right engine.old → (store : Stores) → E.leaves engine.old store
        → IsPrefix (posted poster.old) store.stored → IsPrefix (posted poster.new) store.stored }
    ensures whole { result ≡ false → (E.value engine.old).spent ≡ false → E.right engine.old
        → (store : Stores) → E.leaves engine.old store
        → IsPrefix (posted poster.old) store.stored
        → IsAlmostPosted (posted poster.old) (E.value engine.old).own store.stored
        → posted poster.new ≡ store.stored }
    ensures published { result ≡ false → poster.new.pending ≡ [] }
{
    let wanted = post_unless_spent(alloc, engine, poster);
    match poster.publish() {
        Ok(()) => wanted,
        Err(NoMemory) => true,
    }
}
