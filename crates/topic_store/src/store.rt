//! A store, and its opening.

ghost use Rattle.std.specs.Prelude.{◌≡◌, ◌≤◌, ◌+◌, ◌++◌, ◌∷◌, [], ℕ, false, length, List, IfErr, IfOk, IfSome, IsTrue, OnOk, drop, option_map};
ghost use Rattle.std.specs.List.{list_all};
ghost use Rattle.kap_base.specs.Words.{HasRisen};
ghost use Rattle.gate_log.specs.Head.{IsHead};
ghost use Rattle.kap_io.specs.Moments.{Moments, Quiet};
ghost use Rattle.store_records.specs.Held.{MayFollow, points_in};
ghost use Rattle.store_records.specs.Histories.{held};
ghost use Rattle.store_records.specs.Lines.{are_lines, is_of};
ghost use Rattle.store_records.specs.Orders.{DefinesValid};
ghost use Rattle.store_records.specs.Records.{HasForm};
ghost use Rattle.store_records.specs.declared.rec.Rec.{Rec};
ghost use Rattle.store_compact.specs.Staying.{staying};
ghost use Rattle.topic_store.specs.Adding.{AddFault, IsLongOrNot, stands_before_or_after};
ghost use Rattle.store_kept.specs.Keeping.{AreValid, KeepsRecords, kept_of};
ghost use Rattle.topic_store.specs.Behind.{TopicsOrNot};
ghost use Rattle.topic_store.specs.Faults.{IsPlacedAt, IsPlacedIn, IsPlacedInHeadOr};
ghost use Rattle.topic_store.specs.Opening.{Finds, IsOnWith, Opens, Refuses, StoreCause};
ghost use Rattle.topic_store.specs.Pieces.{PieceOrNot, piece_behind};
ghost use Rattle.topic_store.specs.Points.{IsBefore};
ghost use Rattle.topic_store.specs.Rewriting.{RewriteFault, RewritesOrNot, other_log, stands_old_or_new};
ghost use Rattle.topic_store.specs.Snapshots.{SnapOrNot};
ghost use Rattle.topic_store.specs.Stores.{IsNoStore, IsOn, Stands, numbers_of, store_of};

use crate::behind::topics_of_first;
use crate::fault::{StoreFault, fault_in};
use crate::opening::{open_part, synced_head};
use crate::pieces::{piece_from, piece_len, points_start, transitions_start};
use crate::reader::PointsReader;
use crate::rewriting::rewrite_store;
use crate::stored::states_at;
use gate_log::{BODY_LIMIT, Log};
use kap_base::{Bytes, Point, Points, Text};
use kap_io::{Disk, Part};
use std::alloc::Global;
use std::marker::Model;
use store_kept::{Kept, commit, commit_batch, prepare, prepare_batch};
use store_records::{Life, LifeNumbers, Rec, StoredTask, Transitions, batch_body, record_body};
use topic_core::Topics;

/// A store on a disk. What its calls promise stands on the disk on which it was opened, where since then only
/// calls on it changed what a read gives, or added to what a crash may leave.
#[derive(Debug, Drop)]
pub struct Store {
    alloc: Global,
    pub(crate) log: Log,
    kept: Kept,
}

impl Model for Store {
    ghost use Rattle.store_kept.specs.Keeping.{KeepsRecords, kept_of};
    ghost use Rattle.topic_store.specs.Stores.{StoreState};

    ghost Value = { StoreState };

    ghost view = { λ s. record { log = s.log; kept = kept_of s.kept } };
}

/// Adds a record to a log, and to what is kept.
fn add_record<D: Disk>(
    alloc: Global,
    log: &mut Log,
    kept: &mut Kept,
    disk: &mut D,
    rec: &Rec,
) -> Result<(), StoreFault>
    requires usable { log.old.spent ≡ false }
    requires form { HasForm rec.now }
    ensures added { IsTrue D.tells → (rs : List Rec) → MayFollow (held rs) rec.now
        → IsOn rs (D.seen disk.old) (D.may_leave disk.old) (store_of log.old (kept_of kept.old))
        → OnOk result (IsOn (rs ++ rec.now ∷ []) (D.seen disk.new) (D.may_leave disk.new)
        (store_of log.new (kept_of kept.new))) }
    ensures usable { OnOk result (log.new.spent ≡ false) }
    ensures any_moment { IsTrue D.tells → (rs : List Rec) → MayFollow (held rs) rec.now
        → IsOn rs (D.seen disk.old) (D.may_leave disk.old) (store_of log.old (kept_of kept.old))
        → Moments D.moment D.may_leave D.left_since disk.old disk.new
        (stands_before_or_after rs rec.now) }
    ensures long { IsLongOrNot rec.now result }
    ensures count { OnOk result (kept.new.points ≡ kept.old.points + length (points_in rec.now)) }
    ensures valid { DefinesValid rec.now → AreValid (kept_of kept.old) → AreValid (kept_of kept.new) }
    ensures later { D.faults disk.old ≤ D.faults disk.new }
    ensures cause { AddFault result disk.old disk.new (store_of log.old (kept_of kept.old))
        (store_of log.new (kept_of kept.new)) (HasRisen (D.faults disk.old) (D.faults disk.new)) }
{
    let body = record_body(alloc, rec)?;
    if body.len() > BODY_LIMIT {
        return Err(StoreFault::Long);
    }
    let parts = prepare(alloc, kept, log.end(), rec)?;
    match log.append(disk, body.as_slice()) {
        Ok(()) => {
            commit(kept, rec, parts);
            Ok(())
        }
        Err(fault) => Err(fault_in(log.part(), fault)),
    }
}

/// Adds a batch of points that are lent to a log, and to what is kept.
fn add_points<D: Disk>(
    alloc: Global,
    log: &mut Log,
    kept: &mut Kept,
    disk: &mut D,
    db: &Text,
    rp: &Text,
    points: &[Point],
) -> Result<(), StoreFault>
    requires usable { log.old.spent ≡ false }
    requires lines { IsTrue (are_lines (db.now, rp.now)) }
    requires points { IsTrue (list_all (is_of db.now rp.now) points.now) }
    ensures added { IsTrue D.tells → (rs : List Rec)
        → IsOn rs (D.seen disk.old) (D.may_leave disk.old) (store_of log.old (kept_of kept.old))
        → OnOk result (IsOn (rs ++ Rec.Batch db.now rp.now points.now ∷ []) (D.seen disk.new)
        (D.may_leave disk.new) (store_of log.new (kept_of kept.new))) }
    ensures usable { OnOk result (log.new.spent ≡ false) }
    ensures any_moment { IsTrue D.tells → (rs : List Rec)
        → IsOn rs (D.seen disk.old) (D.may_leave disk.old) (store_of log.old (kept_of kept.old))
        → Moments D.moment D.may_leave D.left_since disk.old disk.new
        (stands_before_or_after rs (Rec.Batch db.now rp.now points.now)) }
    ensures long { IsLongOrNot (Rec.Batch db.now rp.now points.now) result }
    ensures count { OnOk result (kept.new.points ≡ kept.old.points + length points.now) }
    ensures valid { AreValid (kept_of kept.old) → AreValid (kept_of kept.new) }
    ensures later { D.faults disk.old ≤ D.faults disk.new }
    ensures cause { AddFault result disk.old disk.new (store_of log.old (kept_of kept.old))
        (store_of log.new (kept_of kept.new)) (HasRisen (D.faults disk.old) (D.faults disk.new)) }
{
    let body = batch_body(alloc, db, rp, points)?;
    if body.len() > BODY_LIMIT {
        return Err(StoreFault::Long);
    }
    let parts = prepare_batch(kept, log.end(), points)?;
    match log.append(disk, body.as_slice()) {
        Ok(()) => {
            commit_batch(kept, parts);
            Ok(())
        }
        Err(fault) => Err(fault_in(log.part(), fault)),
    }
}

/// The store that the files stand for, and the topics of its transitions.
fn find_store<D: Disk>(alloc: Global, disk: &mut D) -> Result<(Store, Topics), StoreFault>
    ensures found { IsTrue D.tells
        → Finds (IsOnWith (D.seen disk.old) (D.may_leave disk.new)) (D.seen disk.old) result }
    ensures usable { IfOk result (λ opened. opened.0.log.spent ≡ false) }
    ensures valid { IfOk result (λ opened. AreValid opened.0.kept) }
    ensures quiet { IsTrue D.tells
        → Quiet D.seen D.moment D.may_leave D.left_since disk.old disk.new }
    ensures cause { StoreCause (D.faults disk.old) (D.faults disk.new) result }
{
    let part = synced_head(disk)?;
    let reached = open_part(alloc, disk, part)?;
    let store = Store {
        alloc,
        log: reached.log,
        kept: reached.kept,
    };
    Ok((store, reached.topics))
}

/// The store that the files stand for, and the topics of its transitions, for those who go on from its
/// levels. All else is as `open_store` says.
pub fn open_with_topics<D: Disk>(alloc: Global, disk: &mut D) -> Result<(Store, Topics), StoreFault>
    ensures found { IsTrue D.tells
        → Finds (IsOnWith (D.seen disk.old) (D.may_leave disk.new)) (D.seen disk.old) result }
    ensures opened { IsTrue D.tells → (rs : List Rec) → Stands rs (D.seen disk.old)
        → Opens (IsOnWith (D.seen disk.old) (D.may_leave disk.new) rs) result }
    ensures refused { IsTrue D.tells → (part : Part) (offset : ℕ)
        → IsNoStore (D.seen disk.old) part offset → Refuses part offset result }
    ensures usable { IfOk result (λ opened. opened.0.log.spent ≡ false) }
    ensures valid { IfOk result (λ opened. AreValid opened.0.kept) }
    ensures quiet { IsTrue D.tells
        → Quiet D.seen D.moment D.may_leave D.left_since disk.old disk.new }
    ensures cause { StoreCause (D.faults disk.old) (D.faults disk.new) result }
{
    find_store(alloc, disk)
}

/// The store that the files stand for. It begins with a sync of each file that it reads, reads each record
/// once, and changes nothing. `NotStore` comes exactly where the files stand for none, and tells the file and
/// the place: the head at 0 where its first bytes aren't those of a head; the log that the head names at 0
/// where its first bytes aren't those of a log; else the gate of the first record that runs past the end of
/// the file, or isn't one, or may not follow those before it, or whose body has more than
/// `gate_log::BODY_LIMIT` bytes. `DiskFault` comes only where the disk's count of faults rose in this call;
/// `Long` never comes. On any disk its tasks and lives have valid ids, and scripts that aren't too long;
/// `Store::add` keeps it so.
pub fn open_store<D: Disk>(alloc: Global, disk: &mut D) -> Result<Store, StoreFault>
    ensures found { IsTrue D.tells → Finds (λ rs store.
        IsOn rs (D.seen disk.old) (D.may_leave disk.new) store) (D.seen disk.old) result }
    ensures opened { IsTrue D.tells → (rs : List Rec) → Stands rs (D.seen disk.old)
        → Opens (IsOn rs (D.seen disk.old) (D.may_leave disk.new)) result }
    ensures refused { IsTrue D.tells → (part : Part) (offset : ℕ)
        → IsNoStore (D.seen disk.old) part offset → Refuses part offset result }
    ensures usable { IfOk result (λ store. store.log.spent ≡ false) }
    ensures valid { IfOk result (λ store. AreValid store.kept) }
    ensures quiet { IsTrue D.tells
        → Quiet D.seen D.moment D.may_leave D.left_since disk.old disk.new }
    ensures cause { StoreCause (D.faults disk.old) (D.faults disk.new) result }
{
    let (store, _topics) = find_store(alloc, disk)?;
    Ok(store)
}

impl Store {
    /// Adds a record, by two writes, each of which is synced. The record may follow those of the store, which
    /// `may_define`, `has_task`, `is_batch` and `take_transitions` tell: from `Ok` on each image has it as
    /// its last. `Long` comes exactly where the record's body has more than `gate_log::BODY_LIMIT` bytes;
    /// `Long` and `NoMemory` change nothing. After `DiskFault`, which comes only where the disk's count of
    /// faults rose in this call, the store is spent, and each image has the old records, or these and the new
    /// one.
    pub fn add<D: Disk>(&mut self, disk: &mut D, rec: &Rec) -> Result<(), StoreFault>
        requires usable { self.old.log.spent ≡ false }
        requires form { HasForm rec.now }
        ensures added { IsTrue D.tells → (rs : List Rec) → MayFollow (held rs) rec.now
            → IsOn rs (D.seen disk.old) (D.may_leave disk.old) self.old
            → OnOk result (IsOn (rs ++ rec.now ∷ [])
            (D.seen disk.new) (D.may_leave disk.new) self.new) }
        ensures usable { OnOk result (self.new.log.spent ≡ false) }
        ensures any_moment { IsTrue D.tells → (rs : List Rec) → MayFollow (held rs) rec.now
            → IsOn rs (D.seen disk.old) (D.may_leave disk.old) self.old
            → Moments D.moment D.may_leave D.left_since disk.old disk.new
            (stands_before_or_after rs rec.now) }
        ensures long { IsLongOrNot rec.now result }
        ensures count { OnOk result
            (self.new.kept.points ≡ self.old.kept.points + length (points_in rec.now)) }
        ensures valid { DefinesValid rec.now → AreValid self.old.kept → AreValid self.new.kept }
        ensures later { D.faults disk.old ≤ D.faults disk.new }
        ensures cause { AddFault result disk.old disk.new self.old self.new
            (HasRisen (D.faults disk.old) (D.faults disk.new)) }
    {
        add_record(self.alloc, &mut self.log, &mut self.kept, disk, rec)
    }

    /// Adds a batch of points that are lent, as `add` adds a record. They are ungrouped and of the database
    /// and the policy, which hold no line feed; such a batch may follow any records.
    pub fn add_batch<D: Disk>(
        &mut self,
        disk: &mut D,
        db: &Text,
        rp: &Text,
        points: &[Point],
    ) -> Result<(), StoreFault>
        requires usable { self.old.log.spent ≡ false }
        requires lines { IsTrue (are_lines (db.now, rp.now)) }
        requires points { IsTrue (list_all (is_of db.now rp.now) points.now) }
        ensures added { IsTrue D.tells → (rs : List Rec)
            → IsOn rs (D.seen disk.old) (D.may_leave disk.old) self.old
            → OnOk result (IsOn (rs ++ Rec.Batch db.now rp.now points.now ∷ [])
            (D.seen disk.new) (D.may_leave disk.new) self.new) }
        ensures usable { OnOk result (self.new.log.spent ≡ false) }
        ensures any_moment { IsTrue D.tells → (rs : List Rec)
            → IsOn rs (D.seen disk.old) (D.may_leave disk.old) self.old
            → Moments D.moment D.may_leave D.left_since disk.old disk.new
            (stands_before_or_after rs (Rec.Batch db.now rp.now points.now)) }
        ensures long { IsLongOrNot (Rec.Batch db.now rp.now points.now) result }
        ensures count { OnOk result
            (self.new.kept.points ≡ self.old.kept.points + length points.now) }
        ensures valid { AreValid self.old.kept → AreValid self.new.kept }
        ensures later { D.faults disk.old ≤ D.faults disk.new }
        ensures cause { AddFault result disk.old disk.new self.old self.new
            (HasRisen (D.faults disk.old) (D.faults disk.new)) }
    {
        add_points(
            self.alloc,
            &mut self.log,
            &mut self.kept,
            disk,
            db,
            rp,
            points,
        )
    }

    /// Rewrites the store into its other log: makes that anew, copies into it the records that `staying` tells of,
    /// and lets the head name it. Left out are records that changed nothing (an Enable of an enabled task, and the
    /// reverse), snapshots but the last, and Define and Delete of tasks that never had a life and are deleted; all
    /// else is in the same order. So tasks, lives, points, transitions and the last snapshot stay; the places of
    /// records are those in the new log. Bodies are copied one after the other, as bytes. At each moment each image
    /// stands for the old records, or for those that stay, and for these from `Ok` on, when the store is on the
    /// other log. After each fault the store is spent, and is to be opened anew. `DiskFault` comes only where the
    /// disk's count of faults rose in this call, and `NoMemory` where memory ran out. `NotStore` comes only on a
    /// disk that doesn't tell what a read gives, where a record is none or the head doesn't name the log.
    pub fn rewrite<D: Disk>(&mut self, disk: &mut D) -> Result<(), StoreFault>
        requires usable { self.old.log.spent ≡ false }
        ensures rewritten { IsTrue D.tells → (rs : List Rec)
            → IsOn rs (D.seen disk.old) (D.may_leave disk.old) self.old
            → RewritesOrNot (λ _. IsOn (staying rs)
            (D.seen disk.new) (D.may_leave disk.new) self.new) result }
        ensures switched { IsTrue D.tells → (rs : List Rec)
            → IsOn rs (D.seen disk.old) (D.may_leave disk.old) self.old
            → (run : ℕ) → IsHead run (D.seen disk.old Part.Head)
            → OnOk result (IsHead (run + 1) (D.seen disk.new Part.Head)) }
        ensures any_moment { IsTrue D.tells → (rs : List Rec)
            → IsOn rs (D.seen disk.old) (D.may_leave disk.old) self.old
            → Moments D.moment D.may_leave D.left_since disk.old disk.new (stands_old_or_new rs) }
        ensures part { OnOk result (self.new.log.part ≡ other_log self.old.log.part) }
        ensures place { IfErr result (IsPlacedInHeadOr self.old.log.part) }
        ensures usable { OnOk result (self.new.log.spent ≡ false) }
        ensures valid { AreValid self.old.kept → AreValid self.new.kept }
        ensures later { D.faults disk.old ≤ D.faults disk.new }
        ensures cause { RewriteFault result self.new
            (HasRisen (D.faults disk.old) (D.faults disk.new)) }
    {
        match rewrite_store(self.alloc, &self.log, &self.kept, disk) {
            Ok((log, kept)) => {
                self.log = log;
                self.kept = kept;
                Ok(())
            }
            Err(fault) => {
                self.log.spend();
                Err(fault)
            }
        }
    }

    /// The tasks, in byte order of their ids.
    pub fn tasks(&self) -> &[StoredTask]
        ensures { result.now ≡ self.now.kept.tasks }
    {
        &self.kept.tasks
    }

    /// The lives, in the order of their beginning; the first has the number 1.
    pub fn lives(&self) -> &[Life]
        ensures { result.now ≡ self.now.kept.lives }
    {
        &self.kept.lives
    }

    /// How many points are stored.
    pub fn count(&self) -> u64
        ensures { result ≡ self.now.kept.points }
    {
        self.kept.points
    }

    /// How many transitions are stored.
    pub fn trans_count(&self) -> u64
        ensures { result ≡ self.now.kept.transitions }
    {
        self.kept.transitions
    }

    /// How many records there are of all kinds but transitions and snapshots in the current log.
    pub fn changes(&self) -> u64
        ensures { result ≡ self.now.kept.changes }
    {
        self.kept.changes
    }

    /// How many points and transitions were stored before the last snapshot; `None` where there is none.
    pub fn last_snap(&self) -> Option<(u64, u64)>
        ensures { result ≡ option_map numbers_of self.now.kept.snap }
    {
        match &self.kept.snap {
            Some(snap) => Some((snap.points, snap.transitions)),
            None => None,
        }
    }

    /// The last snapshot: the offset of its record's gate, the numbers of the lives that were open at it,
    /// rising, and the states of their cells. `None` comes exactly where there is no snapshot. `DiskFault`
    /// comes only where the disk's count of faults rose in this call, and `NoMemory` where memory ran out.
    /// `NotStore` comes only on a disk that doesn't tell what a read gives, at a record that is none.
    pub fn snap<D: Disk>(
        &self,
        disk: &mut D,
    ) -> Result<Option<(u64, LifeNumbers, Bytes)>, StoreFault>
        requires usable { self.now.log.spent ≡ false }
        ensures snap { IsTrue D.tells → (rs : List Rec)
            → IsOn rs (D.seen disk.old) (D.may_leave disk.old) self.now → SnapOrNot rs result }
        ensures none { self.now.kept.snap ≡ None → result ≡ Ok None }
        ensures place { IfErr result (λ fault. IfSome self.now.kept.snap
            (λ snap. IsPlacedAt self.now.log.part snap.at fault)) }
        ensures quiet { IsTrue D.tells
            → Quiet D.seen D.moment D.may_leave D.left_since disk.old disk.new }
        ensures cause { StoreCause (D.faults disk.old) (D.faults disk.new) result }
    {
        let Some(snap) = &self.kept.snap else {
            return Ok(None);
        };
        let states = states_at(self.alloc, &self.log, disk, snap.at)?;
        let lives = Vec::from_slice(self.alloc, snap.lives.as_slice())?;
        Ok(Some((snap.at, LifeNumbers::from_items(lives), states)))
    }

    /// The points behind this number, from the one numbered `after + 1` on: 4,096, or all where there are no
    /// more. They are numbered from 1, in the order in which they were stored. `DiskFault` comes only where
    /// the disk's count of faults rose in this call, and `NoMemory` where memory ran out. `NotStore` comes
    /// only on a disk that doesn't tell what a read gives, at a record that is none.
    pub fn points<D: Disk>(&self, disk: &mut D, after: u64) -> Result<Points, StoreFault>
        requires usable { self.now.log.spent ≡ false }
        ensures points { IsTrue D.tells → (rs : List Rec)
            → IsOn rs (D.seen disk.old) (D.may_leave disk.old) self.now
            → PieceOrNot (piece_behind after (held rs).points) result }
        ensures few { IfOk result (λ piece. length piece ≤ 4096) }
        ensures place { IfErr result (IsPlacedIn self.now.log.part) }
        ensures quiet { IsTrue D.tells
            → Quiet D.seen D.moment D.may_leave D.left_since disk.old disk.new }
        ensures cause { StoreCause (D.faults disk.old) (D.faults disk.new) result }
    {
        let start = points_start(&self.kept.marks, after);
        let wanted = piece_len(self.kept.points, after);
        piece_from(self.alloc, &self.log, disk, start, wanted)
    }

    /// A reader of the points behind this number, which reads each record once.
    pub fn read_points(&self, after: u64) -> PointsReader
        ensures { (rs : List Rec) → KeepsRecords rs self.now.kept
            → IsBefore rs (drop after (held rs).points) result }
    {
        let start = points_start(&self.kept.marks, after);
        PointsReader::new(self.alloc, start, self.kept.points.saturating_sub(after))
    }

    /// The transitions behind this number, from the one numbered `after + 1` on: 4,096, or all where there
    /// are no more. All else is as `points` says.
    pub fn transitions<D: Disk>(&self, disk: &mut D, after: u64) -> Result<Transitions, StoreFault>
        requires usable { self.now.log.spent ≡ false }
        ensures transitions { IsTrue D.tells → (rs : List Rec)
            → IsOn rs (D.seen disk.old) (D.may_leave disk.old) self.now
            → PieceOrNot (piece_behind after (held rs).transitions) result }
        ensures few { IfOk result (λ piece. length piece ≤ 4096) }
        ensures place { IfErr result (IsPlacedIn self.now.log.part) }
        ensures quiet { IsTrue D.tells
            → Quiet D.seen D.moment D.may_leave D.left_since disk.old disk.new }
        ensures cause { StoreCause (D.faults disk.old) (D.faults disk.new) result }
    {
        let start = transitions_start(&self.kept.marks, after);
        let wanted = piece_len(self.kept.transitions, after);
        piece_from(self.alloc, &self.log, disk, start, wanted)
    }

    /// The topics behind the first `number` transitions, or behind all where there are no more, for those who
    /// go on from there. All else is as `points` says.
    pub fn topics_behind<D: Disk>(&self, disk: &mut D, number: u64) -> Result<Topics, StoreFault>
        requires usable { self.now.log.spent ≡ false }
        ensures topics { IsTrue D.tells → (rs : List Rec)
            → IsOn rs (D.seen disk.old) (D.may_leave disk.old) self.now
            → TopicsOrNot (held rs).transitions number result }
        ensures place { IfErr result (IsPlacedIn self.now.log.part) }
        ensures quiet { IsTrue D.tells
            → Quiet D.seen D.moment D.may_leave D.left_since disk.old disk.new }
        ensures cause { StoreCause (D.faults disk.old) (D.faults disk.new) result }
    {
        let wanted = number.min(self.kept.transitions);
        topics_of_first(self.alloc, self, disk, wanted)
    }

    /// Whether a call on it failed in the middle. It is then to be opened anew.
    pub fn spent(&self) -> bool
        ensures { result ≡ self.now.log.spent }
    {
        self.log.spent()
    }

    /// The current log.
    pub fn part(&self) -> Part
        ensures { result ≡ self.now.log.part }
    {
        self.log.part()
    }
}
