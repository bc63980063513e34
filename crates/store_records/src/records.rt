//! Records as bytes.

ghost use Rattle.std.specs.Prelude.{◌≡◌, ◌++◌, ◌∷◌, IfOk, IsTrue, OnOk};
ghost use Rattle.std.specs.List.{list_all};
ghost use Rattle.state_code.specs.Places.{ReadsOrNot};
ghost use Rattle.state_code.specs.Spelling.{spell_bytes};
ghost use Rattle.state_code.specs.Texts.{FitsText};
ghost use Rattle.store_records.specs.Lines.{are_lines, is_of};
ghost use Rattle.store_records.specs.Records.{FitsRecord, HasForm, IsBodyOf, RecordOf, read_define, read_points, read_record, read_snap, spell_record};
ghost use Rattle.store_records.specs.States.{AreStates};

use crate::lines::{put_points, read_points};
use crate::rec::Rec;
use crate::states::read_states;
use crate::transitions::{put_transitions, read_transitions};
use kap_base::{Bytes, NoMemory, Point, Text};
use state_code::{CodeFault, Cursor, Spelled, put_text, put_u8, put_u64};
use std::alloc::Global;

fn put_define(id: &Text, script: &Text, enabled: bool, to: &mut Bytes) -> Result<(), NoMemory>
    ensures bytes { OnOk result (to.new
        ≡ to.old ++ spell_record (Rec.Define id.now script.now enabled)) }
    ensures fits { OnOk result (FitsRecord (Rec.Define id.now script.now enabled)) }
{
    put_u8(to, 1)?;
    put_text(to, id)?;
    put_text(to, script)?;
    enabled.append_spelling(to)
}

/// Appends the kind's byte and an id.
fn put_id(kind: u8, id: &Text, to: &mut Bytes) -> Result<(), NoMemory>
    ensures bytes { OnOk result (to.new ≡ to.old ++ kind ∷ spell_bytes id.now) }
    ensures fits { OnOk result (FitsText id.now) }
{
    put_u8(to, kind)?;
    put_text(to, id)
}

fn put_batch(
    alloc: Global,
    db: &Text,
    rp: &Text,
    points: &[Point],
    to: &mut Bytes,
) -> Result<(), NoMemory>
    requires lines { IsTrue (are_lines (db.now, rp.now)) }
    requires points { IsTrue (list_all (is_of db.now rp.now) points.now) }
    ensures bytes { OnOk result (to.new
        ≡ to.old ++ spell_record (Rec.Batch db.now rp.now points.now)) }
    ensures fits { OnOk result (FitsRecord (Rec.Batch db.now rp.now points.now)) }
{
    put_u8(to, 5)?;
    put_text(to, db)?;
    put_text(to, rp)?;
    put_points(alloc, db, rp, points, to)
}

fn put_snap(points: u64, trans: u64, states: &[u8], to: &mut Bytes) -> Result<(), NoMemory>
    requires { AreStates states.now }
    ensures bytes { OnOk result (to.new
        ≡ to.old ++ spell_record (Rec.Snap points trans states.now)) }
    ensures fits { OnOk result (FitsRecord (Rec.Snap points trans states.now)) }
{
    put_u8(to, 7)?;
    put_u64(to, points)?;
    put_u64(to, trans)?;
    to.append(states)
}

fn put_record(alloc: Global, rec: &Rec, to: &mut Bytes) -> Result<(), NoMemory>
    requires { HasForm rec.now }
    ensures bytes { OnOk result (to.new ≡ to.old ++ spell_record rec.now) }
    ensures fits { OnOk result (FitsRecord rec.now) }
{
    match rec {
        Rec::Define {
            id,
            script,
            enabled,
        } => put_define(id, script, *enabled, to),
        Rec::Enable { id } => put_id(2, id, to),
        Rec::Disable { id } => put_id(3, id, to),
        Rec::Delete { id } => put_id(4, id, to),
        Rec::Batch { db, rp, points } => put_batch(alloc, db, rp, points.as_slice(), to),
        Rec::Trans(transitions) => {
            put_u8(to, 6)?;
            put_transitions(transitions.as_slice(), to)
        }
        Rec::Snap {
            points,
            trans,
            states,
        } => put_snap(*points, *trans, states.as_slice(), to),
    }
}

/// The body of a record: the byte of its kind, and what it holds. The points of a batch are ungrouped and of
/// its database and policy, which hold no line feed, and the states of a snapshot are those of cells. A text
/// of 2^32 bytes or more, and a list of as many items, are want of memory.
pub fn record_body(alloc: Global, rec: &Rec) -> Result<Bytes, NoMemory>
    requires { HasForm rec.now }
    ensures { IfOk result (λ body. IsBodyOf rec.now body) }
{
    let mut body = Bytes::new(alloc);
    put_record(alloc, rec, &mut body)?;
    Ok(body)
}

/// The body of a record of points that are lent, as `record_body` has it: they are ungrouped and of the
/// database and the policy, which hold no line feed.
pub fn batch_body(alloc: Global, db: &Text, rp: &Text, points: &[Point]) -> Result<Bytes, NoMemory>
    requires lines { IsTrue (are_lines (db.now, rp.now)) }
    requires points { IsTrue (list_all (is_of db.now rp.now) points.now) }
    ensures { IfOk result (IsBodyOf (Rec.Batch db.now rp.now points.now)) }
{
    let mut body = Bytes::new(alloc);
    put_batch(alloc, db, rp, points, &mut body)?;
    Ok(body)
}

fn read_define(alloc: Global, from: &mut Cursor) -> Result<Rec, CodeFault>
    ensures { ReadsOrNot read_define from.old from.new result }
{
    let id = from.text(alloc)?;
    let script = from.text(alloc)?;
    let enabled = <bool as Spelled>::read_spelling(alloc, from)?;
    Ok(Rec::Define {
        id,
        script,
        enabled,
    })
}

fn read_batch(alloc: Global, from: &mut Cursor) -> Result<Rec, CodeFault>
    ensures { ReadsOrNot read_points from.old from.new result }
{
    let db = from.text(alloc)?;
    let rp = from.text(alloc)?;
    if !db.is_line() {
        return Err(CodeFault::At(from.offset()));
    }
    if !rp.is_line() {
        return Err(CodeFault::At(from.offset()));
    }
    let points = read_points(alloc, &db, &rp, from)?;
    Ok(Rec::Batch { db, rp, points })
}

fn read_snap(alloc: Global, from: &mut Cursor) -> Result<Rec, CodeFault>
    ensures { ReadsOrNot read_snap from.old from.new result }
{
    let points = from.u64()?;
    let trans = from.u64()?;
    let states = read_states(alloc, from)?;
    Ok(Rec::Snap {
        points,
        trans,
        states,
    })
}

fn read_any(alloc: Global, from: &mut Cursor) -> Result<Rec, CodeFault>
    ensures { ReadsOrNot read_record from.old from.new result }
{
    match from.u8()? {
        1 => read_define(alloc, from),
        2 => {
            let id = from.text(alloc)?;
            Ok(Rec::Enable { id })
        }
        3 => {
            let id = from.text(alloc)?;
            Ok(Rec::Disable { id })
        }
        4 => {
            let id = from.text(alloc)?;
            Ok(Rec::Delete { id })
        }
        5 => read_batch(alloc, from),
        6 => {
            let transitions = read_transitions(alloc, from)?;
            Ok(Rec::Trans(transitions))
        }
        7 => read_snap(alloc, from),
        _ => Err(CodeFault::At(from.offset())),
    }
}

/// The record whose body these bytes are, all of them; `None` exactly where they are the body of none.
pub fn read_record(alloc: Global, body: &[u8]) -> Result<Option<Rec>, NoMemory>
    ensures { RecordOf body.now result }
{
    let mut from = Cursor::new(body);
    match read_any(alloc, &mut from) {
        Ok(rec) => {
            if from.is_done() {
                Ok(Some(rec))
            } else {
                Ok(None)
            }
        }
        Err(CodeFault::At(_)) => Ok(None),
        Err(CodeFault::NoMemory) => Err(NoMemory),
    }
}
