//! What a record adds to what is kept: made first, so that putting it in takes no memory.

ghost use Rattle.std.specs.Prelude.{◌≡◌, ℕ, ◌+◌, ◌++◌, ◌<◌, List, IfOk, IfSome, OnOk, if◌then◌else◌, length, vec_capacity, vec_len};
ghost use Rattle.std.specs.Option.{option_to_list};
ghost use Rattle.kap_base.specs.Points.{PointValue};
ghost use Rattle.store_records.specs.Held.{is_change, later_of, points_in, transitions_in};
ghost use Rattle.store_records.specs.declared.rec.Rec.{Rec};
ghost use Rattle.store_kept.specs.Changing.{ArePartsFor, HasRoom, IsMarkAt, kept_with};
ghost use Rattle.store_kept.specs.Keeping.{kept_of};

use crate::kept::{Kept, Mark};
use crate::lives::{begun, change_lives, snap_in};
use crate::tasks::{change_tasks, defined};
use kap_base::{NoMemory, Point};
use std::alloc::Global;
use store_records::{Life, Rec, Snapshot, StoredTask};

/// About how many points, or transitions, lie between two marks.
const MARK_STEP: u64 = 4096;

/// What a record adds.
#[derive(Debug, Drop)]
pub struct Parts {
    /// The task that it defines.
    pub task: Option<StoredTask>,
    /// The life that it begins.
    pub life: Option<Life>,
    /// The snapshot that it is.
    pub snap: Option<Snapshot>,
    /// Its place, where that is kept.
    pub mark: Option<Mark>,
    /// How many points are then stored.
    pub points: u64,
    /// How many transitions are then stored.
    pub transitions: u64,
    /// How many records there are then of the kinds that clients ask for.
    pub changes: u64,
}

/// Makes room for one more of each.
fn reserve(kept: &mut Kept) -> Result<(), NoMemory>
    ensures room { OnOk result (HasRoom kept.new) }
    ensures same { kept_of kept.new ≡ kept_of kept.old }
{
    kept.tasks.reserve(1)?;
    kept.lives.reserve(1)?;
    kept.marks.reserve(1)?;
    Ok(())
}

/// How many points a record stores.
fn points_in(rec: &Rec) -> u64
    ensures { result ≡ length (points_in rec.now) }
{
    match rec {
        Rec::Batch { points, .. } => points.len() as u64,
        _ => 0,
    }
}

/// How many transitions a record stores.
fn transitions_in(rec: &Rec) -> u64
    ensures { result ≡ length (transitions_in rec.now) }
{
    match rec {
        Rec::Trans(transitions) => transitions.len() as u64,
        _ => 0,
    }
}

/// Whether the record is one that clients ask for, as a number.
fn change_in(rec: &Rec) -> u64
    ensures { result ≡ (if is_change rec.now then 1 else 0) }
{
    match rec {
        Rec::Trans(_) => 0,
        Rec::Snap { .. } => 0,
        _ => 1,
    }
}

fn total(before: u64, more: u64) -> Result<u64, NoMemory>
    ensures { IfOk result (λ total. total ≡ before + more) }
{
    match before.checked_add(more) {
        Some(total) => Ok(total),
        None => Err(NoMemory),
    }
}

/// The place of a record whose gate stands at this offset, where the last mark lies far enough behind.
fn due_mark(kept: &Kept, at: u64) -> Option<Mark>
    ensures { IfSome result (IsMarkAt at (kept_of kept.now)) }
{
    let (points, transitions) = match kept.marks.last() {
        Some(mark) => (mark.points, mark.transitions),
        None => (0, 0),
    };
    let due = kept.points.saturating_sub(points) >= MARK_STEP
        || kept.transitions.saturating_sub(transitions) >= MARK_STEP;
    if !due {
        return None;
    }
    Some(Mark {
        gate: at,
        points: kept.points,
        transitions: kept.transitions,
    })
}

fn parts_of(alloc: Global, kept: &Kept, at: u64, rec: &Rec) -> Result<Parts, NoMemory>
    ensures { IfOk result (λ parts. ArePartsFor at rec.now (kept_of kept.now) parts) }
{
    Ok(Parts {
        task: defined(alloc, at, rec)?,
        life: begun(alloc, kept.points, at, rec, &kept.tasks)?,
        snap: snap_in(alloc, at, rec, &kept.lives)?,
        mark: due_mark(kept, at),
        points: total(kept.points, points_in(rec))?,
        transitions: total(kept.transitions, transitions_in(rec))?,
        changes: total(kept.changes, change_in(rec))?,
    })
}

/// What a record adds whose gate stands at this offset, and room for it. It changes nothing that is kept.
pub fn prepare(alloc: Global, kept: &mut Kept, at: u64, rec: &Rec) -> Result<Parts, NoMemory>
    ensures parts { IfOk result (λ parts. ArePartsFor at rec.now (kept_of kept.old) parts) }
    ensures room { OnOk result (HasRoom kept.new) }
    ensures same { kept_of kept.new ≡ kept_of kept.old }
{
    reserve(kept)?;
    let parts = parts_of(alloc, kept, at, rec)?;
    Ok(parts)
}

/// What a batch of so many points adds, whatever these, its database and its policy.
fn batch_parts(kept: &Kept, at: u64, count: u64) -> Result<Parts, NoMemory>
    ensures { (db rp : List ℕ) (points : List PointValue) → length points ≡ count
        → IfOk result (ArePartsFor at (Rec.Batch db rp points) (kept_of kept.now)) }
{
    Ok(Parts {
        task: None,
        life: None,
        snap: None,
        mark: due_mark(kept, at),
        points: total(kept.points, count)?,
        transitions: kept.transitions,
        changes: total(kept.changes, 1)?,
    })
}

/// As `prepare`, for a batch of so many points, whatever these, its database and its policy.
pub fn prepare_count(kept: &mut Kept, at: u64, count: u64) -> Result<Parts, NoMemory>
    ensures parts { (db rp : List ℕ) (points : List PointValue) → length points ≡ count
        → IfOk result (ArePartsFor at (Rec.Batch db rp points) (kept_of kept.old)) }
    ensures room { OnOk result (HasRoom kept.new) }
    ensures same { kept_of kept.new ≡ kept_of kept.old }
{
    reserve(kept)?;
    let parts = batch_parts(kept, at, count)?;
    Ok(parts)
}

/// As `prepare`, for a batch of points that are lent, whatever its database and policy.
pub fn prepare_batch(kept: &mut Kept, at: u64, points: &[Point]) -> Result<Parts, NoMemory>
    ensures parts { (db rp : List ℕ)
        → IfOk result (ArePartsFor at (Rec.Batch db rp points.now) (kept_of kept.old)) }
    ensures room { OnOk result (HasRoom kept.new) }
    ensures same { kept_of kept.new ≡ kept_of kept.old }
{
    prepare_count(kept, at, points.len() as u64)
}

fn put_mark(marks: &mut Vec<Mark>, mark: Option<Mark>)
    requires { vec_len marks.old < vec_capacity marks.old }
    ensures { marks.new.items ≡ marks.old.items ++ option_to_list mark }
{
    if let Some(mark) = mark {
        let _ = marks.push(mark);
    }
}

fn put_snap(kept: &mut Option<Snapshot>, snap: Option<Snapshot>)
    ensures { kept.new ≡ later_of snap kept.old }
{
    if let Some(snap) = snap {
        *kept = Some(snap);
    }
}

/// Puts in what the record adds, by the parts that `prepare` made for it. It takes no memory.
pub fn commit(kept: &mut Kept, rec: &Rec, parts: Parts)
    requires { HasRoom kept.old }
    ensures { (at : ℕ) → ArePartsFor at rec.now (kept_of kept.old) parts
        → kept_of kept.new ≡ kept_with at rec.now parts.mark (kept_of kept.old) }
{
    let Parts {
        task,
        life,
        snap,
        mark,
        points,
        transitions,
        changes,
    } = parts;
    change_lives(&mut kept.lives, &kept.tasks, rec, kept.points, life);
    change_tasks(&mut kept.tasks, rec, task);
    put_mark(&mut kept.marks, mark);
    put_snap(&mut kept.snap, snap);
    kept.points = points;
    kept.transitions = transitions;
    kept.changes = changes;
}

/// Puts in what a batch adds, by the parts that `prepare_batch` or `prepare_count` made for it. It takes no memory.
pub fn commit_batch(kept: &mut Kept, parts: Parts)
    requires { HasRoom kept.old }
    ensures { (at : ℕ) (db rp : List ℕ) (points : List PointValue)
        → ArePartsFor at (Rec.Batch db rp points) (kept_of kept.old) parts
        → kept_of kept.new ≡ kept_with at (Rec.Batch db rp points) parts.mark (kept_of kept.old) }
{
    let Parts {
        mark,
        points,
        transitions,
        changes,
        ..
    } = parts;
    put_mark(&mut kept.marks, mark);
    kept.points = points;
    kept.transitions = transitions;
    kept.changes = changes;
}
