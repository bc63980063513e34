//! Points and transitions read back, a piece at a time.

ghost use Rattle.std.specs.Prelude.{◌≡◌, ◌-◌, ◌≤◌, ◌++◌, List, IfErr, IfOk, OnOk, drop, false, length, map, min, take, IsTrue};
ghost use Rattle.std.specs.List.{flat_map};
ghost use Rattle.kap_io.specs.Moments.{Quiet};
ghost use Rattle.gate_log.specs.Logs.{Rests};
ghost use Rattle.store_records.specs.Held.{points_in, transitions_in};
ghost use Rattle.store_records.specs.Histories.{Follow, end_of};
ghost use Rattle.store_records.specs.Records.{spell_record};
ghost use Rattle.store_records.specs.declared.rec.Rec.{Rec};
ghost use Rattle.store_kept.specs.Keeping.{AreMarks, IsMark};
ghost use Rattle.topic_store.specs.Faults.{IsPlacedIn};
ghost use Rattle.topic_store.specs.Opening.{StoreCause};
ghost use Rattle.topic_store.specs.Pieces.{IsFrom, LeadsTo, PieceOrNot};

use crate::fault::StoreFault;
use crate::stored::{no_record, record_at};
use gate_log::Log;
use kap_base::{ItemList, NoMemory, Point, Points};
use kap_io::Disk;
use std::alloc::Global;
use store_kept::Mark;
use store_records::{Rec, Transitions};
use topic_core::Transition;

/// How many points or transitions a piece has at most.
pub(crate) const PIECE_LIMIT: u64 = 4096;

/// The offset of the first record's gate.
const FIRST_GATE: u64 = 8;

/// What records store and a store numbers, from 1: points, or transitions.
pub(crate) trait Numbered: Sized + Drop {
    ghost use Rattle.std.specs.Prelude.{List};
    ghost use Rattle.store_records.specs.declared.rec.Rec.{Rec};

    /// Those that a record stores.
    ghost stored: { Rec → List Self };

    /// Those that a record stores.
    fn stored_in(alloc: Global, rec: Rec) -> ItemList<Self>
        ensures { result ≡ stored rec };
}

impl Numbered for Point {
    ghost stored = { points_in };

    fn stored_in(alloc: Global, rec: Rec) -> Points
        ensures { result ≡ points_in rec }
    {
        match rec {
            Rec::Batch { points, .. } => points,
            _ => Points::new(alloc),
        }
    }
}

impl Numbered for Transition {
    ghost stored = { transitions_in };

    fn stored_in(alloc: Global, rec: Rec) -> Transitions
        ensures { result ≡ transitions_in rec }
    {
        match rec {
            Rec::Trans(transitions) => transitions,
            _ => Transitions::new(alloc),
        }
    }
}

/// Where reading begins: at this gate, and behind the first `skip` of what the records from it on store.
#[derive(Clone, Copy, Debug)]
pub(crate) struct Start {
    pub(crate) gate: u64,
    pub(crate) skip: u64,
}

/// The place of the last of so many marks; that of the first record where there are none.
fn last_place(marks: &[Mark], count: usize) -> Mark
    requires { count ≤ length marks.now }
    ensures { (rs : List Rec) → AreMarks rs marks.now → IsMark rs result }
{
    match marks.split_at(count).0.last() {
        Some(mark) => *mark,
        None => Mark {
            gate: FIRST_GATE,
            points: 0,
            transitions: 0,
        },
    }
}

/// The start behind a number, from a gate before which so many are stored; from the first gate where these
/// are more.
fn start_from(gate: u64, before: u64, number: u64) -> Start
    ensures { IsFrom gate before number result }
{
    match number.checked_sub(before) {
        Some(skip) => Start { gate, skip },
        None => Start {
            gate: FIRST_GATE,
            skip: number,
        },
    }
}

/// Where the points behind this number begin: at the last mark before which there are no more.
pub(crate) fn points_start(marks: &[Mark], number: u64) -> Start
    ensures { (rs : List Rec) → AreMarks rs marks.now → LeadsTo points_in rs number result }
{
    let passed = marks.partition_point(|mark| mark.points <= number);
    let place = last_place(marks, passed);
    start_from(place.gate, place.points, number)
}

/// Where the transitions behind this number begin: at the last mark before which there are no more.
pub(crate) fn transitions_start(marks: &[Mark], number: u64) -> Start
    ensures { (rs : List Rec) → AreMarks rs marks.now → LeadsTo transitions_in rs number result }
{
    let passed = marks.partition_point(|mark| mark.transitions <= number);
    let place = last_place(marks, passed);
    start_from(place.gate, place.transitions, number)
}

/// How many the piece behind this number has, where so many are stored.
pub(crate) fn piece_len(count: u64, number: u64) -> usize
    ensures { result ≡ min 4096 (count - number) }
{
    count.saturating_sub(number).min(PIECE_LIMIT) as usize
}

/// Appends the first `room` of the items behind the first `skip` ones.
pub(crate) fn put_behind<T: Drop>(
    items: ItemList<T>,
    skip: u64,
    room: usize,
    piece: &mut Vec<T>,
) -> Result<(), NoMemory>
    ensures { OnOk result (piece.new.items ≡ piece.old.items ++ take room (drop skip items)) }
{
    let mut items = items.into_items();
    let passed = skip.min(items.len() as u64) as usize;
    let mut behind = items.split_off(passed)?;
    behind.truncate(room);
    piece.append(&mut behind)?;
    Ok(())
}

/// The first `wanted` of what is stored from the start on, where there are as many. It reads the records from
/// there on, each once, up to the one that stores the last of these.
pub(crate) fn piece_from<T: Numbered, D: Disk>(
    alloc: Global,
    log: &Log,
    disk: &mut D,
    start: Start,
    wanted: usize,
) -> Result<ItemList<T>, StoreFault>
    requires { log.now.spent ≡ false }
    ensures found { IsTrue D.tells → (rs before behind : List Rec) → Follow rs
        → Rests (map spell_record rs) (D.seen disk.old) (D.may_leave disk.old) log.now
        → rs ≡ before ++ behind → start.gate ≡ end_of before
        → wanted ≤ length (drop start.skip (flat_map T.stored behind))
        → PieceOrNot (take wanted (drop start.skip (flat_map T.stored behind))) result }
    ensures few { IfOk result (λ piece. length piece ≤ wanted) }
    ensures place { IfErr result (IsPlacedIn log.now.part) }
    ensures quiet { IsTrue D.tells
        → Quiet D.seen D.moment D.may_leave D.left_since disk.old disk.new }
    ensures cause { StoreCause (D.faults disk.old) (D.faults disk.new) result }
{
    let mut gate = start.gate;
    let mut skip = start.skip;
    let mut piece = Vec::new(alloc);
    'reading: while piece.len() < wanted {
        let Some((rec, next)) = record_at(alloc, log, disk, gate)? else {
            return Err(no_record(log, gate));
        };
        let items = T::stored_in(alloc, rec);
        let count = items.len() as u64;
        put_behind(items, skip, wanted - piece.len(), &mut piece)?;
        skip = skip.saturating_sub(count);
        gate = next;
    }
    Ok(ItemList::from_items(piece))
}
