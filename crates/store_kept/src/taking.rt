//! Taking in the next record, by its body.

ghost use Rattle.std.specs.Prelude.{◌≡◌, ◌++◌, ℕ, List, IfOk, IsTrue, OnOk, length, map};
ghost use Rattle.store_records.specs.Batches.{IsBatchOf};
ghost use Rattle.store_records.specs.Held.{may_define, transitions_in};
ghost use Rattle.store_records.specs.Histories.{end_of};
ghost use Rattle.store_records.specs.Orders.{DefinesValid, IsValid};
ghost use Rattle.store_records.specs.Records.{IsBodyOf};
ghost use Rattle.store_records.specs.declared.rec.Rec.{Rec};
ghost use Rattle.topic_core.specs.Topics.{StandsFor, TopicsValue, event_of};
ghost use Rattle.topic_core.specs.declared.transition.Transition.{Transition};
ghost use Rattle.store_kept.specs.Keeping.{AreValid, kept_of};
ghost use Rattle.store_kept.specs.Taking.{Holds, Takes, TakesOrNot, follows};

use crate::kept::Kept;
use crate::parts::{commit, commit_batch, prepare, prepare_count};
use kap_base::{NoMemory, Text};
use std::alloc::Global;
use store_records::{
    Checked, Rec, StoredTask, check_record, has_task, is_batch, may_define, take_transitions,
};
use topic_core::Topics;

/// Whether a task of this id and script may be defined beside these.
fn is_definable(tasks: &[StoredTask], id: &Text, script: &Text) -> bool
    ensures may { result ≡ may_define id.now script.now tasks.now }
    ensures valid { IsTrue result → IsValid id.now script.now }
{
    may_define(tasks, id, script)
}

/// Whether the record may follow. Where it may, its transitions are taken into the topics.
fn may_follow(alloc: Global, kept: &Kept, topics: &mut Topics, rec: &Rec) -> Result<bool, NoMemory>
    ensures may { (ts : List Transition) → StandsFor (map event_of ts) topics.old
        → kept.now.transitions ≡ length ts
        → IfOk result (λ may. may ≡ follows (kept_of kept.now) ts rec.now) }
    ensures topics { (ts : List Transition) → StandsFor (map event_of ts) topics.old
        → IfOk result (λ may. IsTrue may
        → StandsFor (map event_of (ts ++ transitions_in rec.now)) topics.new) }
    ensures defines { IfOk result (λ may. IsTrue may → DefinesValid rec.now) }
{
    match rec {
        Rec::Define { id, script, .. } => Ok(is_definable(&kept.tasks, id, script)),
        Rec::Enable { id } => Ok(has_task(&kept.tasks, id)),
        Rec::Disable { id } => Ok(has_task(&kept.tasks, id)),
        Rec::Delete { id } => Ok(has_task(&kept.tasks, id)),
        Rec::Batch { db, rp, points } => Ok(is_batch(db, rp, points.as_slice())),
        Rec::Trans(transitions) => {
            take_transitions(alloc, topics, kept.transitions, transitions.as_slice())
        }
        Rec::Snap { points, trans, .. } => {
            Ok(*points == kept.points && *trans == kept.transitions)
        }
    }
}

/// Takes in the next record, whose gate stands at this offset, where it may follow; else `false`.
fn take_record(
    alloc: Global,
    gate: u64,
    rec: &Rec,
    kept: &mut Kept,
    topics: &mut Topics,
) -> Result<bool, NoMemory>
    ensures takes { (rs : List Rec) (body : List ℕ) → IsBodyOf rec.now body
        → Holds rs (kept_of kept.old) topics.old → gate ≡ end_of rs
        → IfOk result (TakesOrNot rs body (kept_of kept.new) topics.new) }
    ensures valid { AreValid (kept_of kept.old) → AreValid (kept_of kept.new) }
{
    if !may_follow(alloc, kept, topics, rec)? {
        return Ok(false);
    }
    let parts = prepare(alloc, kept, gate, rec)?;
    commit(kept, rec, parts);
    Ok(true)
}

/// Takes in a batch of so many points, whose gate stands at this offset: it may always follow.
fn take_batch(gate: u64, count: u64, kept: &mut Kept) -> Result<(), NoMemory>
    ensures takes { (rs : List Rec) (body : List ℕ) (topics : TopicsValue) → IsBatchOf count body
        → Holds rs (kept_of kept.old) topics → gate ≡ end_of rs
        → OnOk result (Takes rs body (kept_of kept.new) topics) }
    ensures valid { (body : List ℕ) → IsBatchOf count body
        → AreValid (kept_of kept.old) → AreValid (kept_of kept.new) }
{
    let parts = prepare_count(kept, gate, count)?;
    commit_batch(kept, parts);
    Ok(())
}

/// Takes in the next record, whose gate stands at this offset, where the body is that of one that may follow;
/// else `false`. The topics are those of the transitions before. Whatever is kept, tasks and lives that are
/// valid stay so. Of a batch the points are counted, and none is kept.
pub fn take_body(
    alloc: Global,
    gate: u64,
    body: &[u8],
    kept: &mut Kept,
    topics: &mut Topics,
) -> Result<bool, NoMemory>
    ensures takes { (rs : List Rec) → Holds rs (kept_of kept.old) topics.old → gate ≡ end_of rs
        → IfOk result (TakesOrNot rs body.now (kept_of kept.new) topics.new) }
    ensures valid { AreValid (kept_of kept.old) → AreValid (kept_of kept.new) }
{
    match check_record(alloc, body)? {
        Some(Checked::Batch(count)) => {
            take_batch(gate, count, kept)?;
            Ok(true)
        }
        Some(Checked::Other(rec)) => take_record(alloc, gate, &rec, kept, topics),
        None => Ok(false),
    }
}
