//! The records that lines tell.

ghost use Rattle.std.specs.Prelude.{IsTrue};
ghost use Rattle.store_records.specs.Records.{HasForm};

use case_text::{LineFault, first_of, number, point_of, text};
use kap_base::{Level, Point, Points, Text};
use std::alloc::Global;
use store_records::{Rec, Transitions, is_batch};
use topic_core::Transition;

/// Whether a record has the form of its kind; a snapshot's isn't asked.
pub fn has_form(rec: &Rec) -> bool
    ensures { IsTrue result → HasForm rec.now }
{
    match rec {
        Rec::Batch { db, rp, points } => is_batch(db, rp, points.as_slice()),
        Rec::Snap { .. } => false,
        _ => true,
    }
}

/// The point `m x=1i` at a time.
fn point_at(alloc: Global, time: u64, db: &Text, rp: &Text) -> Result<Point, LineFault> {
    let line = format!(in alloc; "m x=1i {time}")?;
    point_of(alloc, line.as_bytes(), db, rp)
}

/// Adds the point at a time.
fn add_point(
    alloc: Global,
    time: u64,
    db: &Text,
    rp: &Text,
    points: &mut Points,
) -> Result<(), LineFault> {
    let point = point_at(alloc, time, db, rp)?;
    points.push(point)?;
    Ok(())
}

/// So many points, with the times from the first on.
fn points_from(
    alloc: Global,
    first: u64,
    count: u64,
    db: &Text,
    rp: &Text,
) -> Result<Points, LineFault> {
    let mut points = Points::new(alloc);
    let mut time = first;
    for _ in 0..count {
        add_point(alloc, time, db, rp, &mut points)?;
        time = time.saturating_add(1);
    }
    Ok(points)
}

/// `FIRST COUNT`: a batch of so many points `m x=1i`, with the times from the first on.
fn many_points(alloc: Global, line: &str) -> Result<Rec, LineFault> {
    let (first, count) = first_of(line);
    let db = text(alloc, "d")?;
    let rp = text(alloc, "r")?;
    let points = points_from(alloc, number(first)?, number(count)?, &db, &rp)?;
    Ok(Rec::Batch { db, rp, points })
}

/// The level before the transition of a number, and the one behind it.
fn levels_in_turn(number: u64) -> (Level, Level) {
    if number.is_multiple_of(2) {
        (Level::Critical, Level::Fine)
    } else {
        (Level::Fine, Level::Critical)
    }
}

/// The transition of a number, from OK to CRITICAL where it is odd, and back.
fn in_turn(alloc: Global, number: u64) -> Result<Transition, LineFault> {
    let (old_level, new_level) = levels_in_turn(number);
    Ok(Transition {
        number,
        topic: text(alloc, "t")?,
        id: text(alloc, "i")?,
        old_level,
        new_level,
        time: 1,
        message: text(alloc, "hi")?,
    })
}

/// `FIRST COUNT`: so many transitions of one id, with the numbers from the first on.
fn many_told(alloc: Global, line: &str) -> Result<Rec, LineFault> {
    let (first, count) = first_of(line);
    let mut batch = Transitions::new(alloc);
    let mut next = number(first)?;
    for _ in 0..number(count)? {
        batch.push(in_turn(alloc, next)?)?;
        next = next.saturating_add(1);
    }
    Ok(Rec::Trans(batch))
}

/// The record that a line tells.
pub fn record_of(alloc: Global, line: &str) -> Result<Rec, LineFault> {
    let (kind, rest) = first_of(line);
    match kind {
        "points" => many_points(alloc, rest),
        "many" => many_told(alloc, rest),
        _ => Err(LineFault::NoForm),
    }
}
