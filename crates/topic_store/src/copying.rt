//! Copying the records that stay from one log into another, each read once.

ghost use Rattle.std.specs.Prelude.{◌≡◌, ◌<◌, ◌≤◌, ◌++◌, ◌∷◌, [], List, false, length, map, IfErr, IfOk, IfSome, IsTrue, OnOk};
ghost use Rattle.kap_io.specs.Disk.{Elsewhere, On};
ghost use Rattle.kap_io.specs.Moments.{Moments, Quiet};
ghost use Rattle.gate_log.specs.Logs.{Rests};
ghost use Rattle.store_records.specs.Histories.{end_of};
ghost use Rattle.store_records.specs.Orders.{DefinesValid};
ghost use Rattle.store_records.specs.Records.{IsBodyOf, spell_record};
ghost use Rattle.store_records.specs.declared.rec.Rec.{Rec};
ghost use Rattle.store_kept.specs.Keeping.{AreValid, kept_of};
ghost use Rattle.topic_store.specs.Faults.{IsPlacedAt, IsPlacedFrom};
ghost use Rattle.topic_store.specs.Opening.{StoreCause};
ghost use Rattle.store_compact.specs.Staying.{staying};
ghost use Rattle.topic_store.specs.Rewriting.{CopiesOrNot, HasPut, IsCopying, IsSource, PutCause, RewritesOrNot, StoredOrNot};
ghost use Rattle.topic_store.specs.Stores.{AreStored};

use crate::fault::{StoreFault, fault_in};
use crate::stored::{body_at, no_record};
use gate_log::{BODY_LIMIT, Log};
use kap_base::{Bytes, NoMemory, SCRIPT_LIMIT, is_task_id};
use kap_io::Disk;
use std::alloc::Global;
use store_compact::is_kept;
use store_kept::{Kept, commit, prepare};
use store_records::{Rec, read_record};

/// The offset of the first record's gate.
const FIRST_GATE: u64 = 8;

/// Whether a task that the record defines is valid.
fn defines_valid(rec: &Rec) -> bool
    ensures sound { IsTrue result → DefinesValid rec.now }
    ensures whole { DefinesValid rec.now → IsTrue result }
{
    match rec {
        Rec::Define { id, script, .. } => {
            if !is_task_id(id.bytes()) {
                return false;
            }
            script.bytes().len() <= SCRIPT_LIMIT
        }
        _ => true,
    }
}

/// The record with this body, where it isn't too long, and a task that the record defines is valid.
fn stored_record(alloc: Global, body: &[u8]) -> Result<Option<Rec>, NoMemory>
    ensures found { (r : Rec) → IsBodyOf r body.now → length body.now ≤ BODY_LIMIT → DefinesValid r
        → IfOk result (λ found. found ≡ Some r) }
    ensures short { IfOk result (λ found. IfSome found (λ _. length body.now ≤ BODY_LIMIT)) }
    ensures valid { IfOk result (λ found. IfSome found DefinesValid) }
{
    if body.len() > BODY_LIMIT {
        return Ok(None);
    }
    let Some(rec) = read_record(alloc, body)? else {
        return Ok(None);
    };
    if !defines_valid(&rec) {
        return Ok(None);
    }
    Ok(Some(rec))
}

/// The body and the record behind a gate of a store's log, and the next gate; none at the closed gate.
fn next_stored<D: Disk>(
    alloc: Global,
    old: &Log,
    disk: &mut D,
    gate: u64,
) -> Result<Option<(Bytes, Rec, u64)>, StoreFault>
    requires { old.now.spent ≡ false }
    ensures found { IsTrue D.tells → (rs before behind : List Rec) → AreStored rs
        → Rests (map spell_record rs) (D.seen disk.old) (D.may_leave disk.old) old.now
        → rs ≡ before ++ behind → gate ≡ end_of before → StoredOrNot result before behind }
    ensures short { IfOk result (λ found. IfSome found (λ found. length found.0 ≤ BODY_LIMIT)) }
    ensures valid { IfOk result (λ found. IfSome found (λ found. DefinesValid found.1)) }
    ensures rises { IfOk result (λ found. IfSome found (λ found. gate < found.2)) }
    ensures place { IfErr result (IsPlacedAt old.now.part gate) }
    ensures quiet { IsTrue D.tells
        → Quiet D.seen D.moment D.may_leave D.left_since disk.old disk.new }
    ensures cause { StoreCause (D.faults disk.old) (D.faults disk.new) result }
{
    let Some((body, next)) = body_at(old, disk, gate)? else {
        return Ok(None);
    };
    match stored_record(alloc, body.as_slice())? {
        Some(rec) => Ok(Some((body, rec, next))),
        None => Err(no_record(old, gate)),
    }
}

/// Puts the record with this body behind a log, and into what is kept of its records.
fn put_body<D: Disk>(
    alloc: Global,
    log: &mut Log,
    kept: &mut Kept,
    disk: &mut D,
    rec: &Rec,
    body: &[u8],
) -> Result<(), StoreFault>
    requires usable { log.old.spent ≡ false }
    requires short { length body.now ≤ BODY_LIMIT }
    ensures put { IsTrue D.tells → (ks : List Rec) → body.now ≡ spell_record rec.now
        → HasPut ks (D.seen disk.old) (D.may_leave disk.old) log.old (kept_of kept.old)
        → OnOk result (HasPut (ks ++ rec.now ∷ [])
        (D.seen disk.new) (D.may_leave disk.new) log.new (kept_of kept.new)) }
    ensures any_moment { IsTrue D.tells → (ks : List Rec)
        → HasPut ks (D.seen disk.old) (D.may_leave disk.old) log.old (kept_of kept.old)
        → Moments D.moment D.may_leave D.left_since disk.old disk.new
        (On log.old.part (λ _ _. Unit {0})) }
    ensures elsewhere { IsTrue D.tells → Elsewhere log.old.part (D.seen disk.old) (D.seen disk.new) }
    ensures part { log.new.part ≡ log.old.part }
    ensures usable { OnOk result (log.new.spent ≡ false) }
    ensures valid { DefinesValid rec.now → AreValid (kept_of kept.old) → AreValid (kept_of kept.new) }
    ensures cause { PutCause (D.faults disk.old) (D.faults disk.new) result }
{
    let parts = prepare(alloc, kept, log.end(), rec)?;
    match log.append(disk, body) {
        Ok(()) => {
            commit(kept, rec, parts);
            Ok(())
        }
        Err(fault) => Err(fault_in(log.part(), fault)),
    }
}

/// Copies the record behind a gate of the old log, unless it is left out, and tells the gate behind it; none at
/// the closed gate. Of all records of the old log `all` is kept, and `kept` of those that were copied.
fn copy_record<D: Disk>(
    alloc: Global,
    old: &Log,
    all: &Kept,
    log: &mut Log,
    kept: &mut Kept,
    disk: &mut D,
    gate: u64,
) -> Result<Option<u64>, StoreFault>
    requires old { old.now.spent ≡ false }
    requires usable { log.old.spent ≡ false }
    ensures copied { IsTrue D.tells → (rs : List Rec)
        → IsCopying rs gate (D.seen disk.old) (D.may_leave disk.old) old.now
        (kept_of all.now) log.old (kept_of kept.old)
        → CopiesOrNot rs (D.seen disk.new) (D.may_leave disk.new) old.now
        (kept_of all.now) log.new (kept_of kept.new) result }
    ensures any_moment { IsTrue D.tells → (rs : List Rec)
        → IsCopying rs gate (D.seen disk.old) (D.may_leave disk.old) old.now
        (kept_of all.now) log.old (kept_of kept.old)
        → Moments D.moment D.may_leave D.left_since disk.old disk.new
        (On log.old.part (λ _ _. Unit {0})) }
    ensures elsewhere { IsTrue D.tells → Elsewhere log.old.part (D.seen disk.old) (D.seen disk.new) }
    ensures part { log.new.part ≡ log.old.part }
    ensures usable { IfOk result (λ _. log.new.spent ≡ false) }
    ensures rises { IfOk result (λ next. IfSome next (λ next. gate < next)) }
    ensures place { IfErr result (IsPlacedAt old.now.part gate) }
    ensures valid { AreValid (kept_of kept.old) → AreValid (kept_of kept.new) }
    ensures cause { StoreCause (D.faults disk.old) (D.faults disk.new) result }
{
    let Some((body, rec, next)) = next_stored(alloc, old, disk, gate)? else {
        return Ok(None);
    };
    if !is_kept(all, kept, gate, &rec) {
        return Ok(Some(next));
    }
    put_body(alloc, log, kept, disk, &rec, body.as_slice())?;
    Ok(Some(next))
}

/// Copies the records of the old log that stay into an empty one. Of the old log's records `all` is kept; what
/// is kept of those that stay is told.
pub(crate) fn copy_records<D: Disk>(
    alloc: Global,
    old: &Log,
    all: &Kept,
    begun: Log,
    disk: &mut D,
) -> Result<(Log, Kept), StoreFault>
    requires old { old.now.spent ≡ false }
    requires usable { begun.spent ≡ false }
    ensures copied { IsTrue D.tells → (rs : List Rec)
        → IsSource rs (D.seen disk.old) (D.may_leave disk.old) old.now (kept_of all.now)
        → Rests [] (D.seen disk.old) (D.may_leave disk.old) begun → (old.now.part ≡ begun.part → ⊥)
        → RewritesOrNot (λ done. HasPut (staying rs) (D.seen disk.new) (D.may_leave disk.new)
        done.0 (kept_of done.1)) result }
    ensures any_moment { IsTrue D.tells → (rs : List Rec)
        → IsSource rs (D.seen disk.old) (D.may_leave disk.old) old.now (kept_of all.now)
        → Rests [] (D.seen disk.old) (D.may_leave disk.old) begun → (old.now.part ≡ begun.part → ⊥)
        → Moments D.moment D.may_leave D.left_since disk.old disk.new
        (On begun.part (λ _ _. Unit {0})) }
    ensures elsewhere { IsTrue D.tells → Elsewhere begun.part (D.seen disk.old) (D.seen disk.new) }
    ensures log { IfOk result (λ done. (done.0.part ≡ begun.part) × (done.0.spent ≡ false)) }
    ensures place { IfErr result (IsPlacedFrom old.now.part 8) }
    ensures valid { IfOk result (λ done. AreValid (kept_of done.1)) }
    ensures cause { StoreCause (D.faults disk.old) (D.faults disk.new) result }
{
    let mut log = begun;
    let mut kept = Kept::new(alloc);
    let mut gate = FIRST_GATE;
    'copying: while let Some(next) = copy_record(
        alloc, old, all, &mut log, &mut kept, disk, gate,
    )? {
        gate = next;
    }
    Ok((log, kept))
}
