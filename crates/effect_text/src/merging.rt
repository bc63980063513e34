//! What lives tell, put together by stamp.

ghost use Rattle.std.specs.Prelude.{◌≡◌, ℕ, ◌++◌, ◌∷◌, [], List, OnOk, drop, map, take};
ghost use Rattle.std.specs.List.{AllByRecursion as Each, flat_map};
ghost use Rattle.kap_base.specs.Events.{EventValue};
ghost use Rattle.kap_base.specs.declared.items.Effect.{Effect};
ghost use Rattle.topic_core.specs.Topics.{StandsFor};
ghost use Rattle.effect_text.specs.Lines.{events_of, text_behind};
ghost use Rattle.effect_text.specs.Pieces.{HaveTheirStamps, Tells, behind_with, by_stamp, front_with};
ghost use Rattle.effect_text.specs.Pieces.{merged, piece_of, pieces_in, side_by_side};
ghost use Rattle.effect_text.specs.declared.names.TaskNames.{TaskNames};

use crate::effects::accept_event;
use crate::printing::{Piece, Printed};
use kap_base::{Bytes, NoMemory};
use std::alloc::Global;
use topic_core::Topics;

/// Those behind so many.
fn behind<T>(items: &[T], count: usize) -> &[T]
    ensures { result.now ≡ drop count items.now }
{
    if items.len() < count {
        return &[];
    }
    items.split_at(count).1
}

/// The first bytes of lines, as many as there are of so many, and those behind them.
fn split_lines(lines: &[u8], size: usize) -> (&[u8], &[u8])
    ensures line { result.0.now ≡ take size lines.now }
    ensures rest { result.1.now ≡ drop size lines.now }
{
    if lines.len() < size {
        return (lines, b"");
    }
    lines.split_at(size)
}

/// Adds the lines of a piece: the line of its point, and of the transition that its event makes.
fn put_piece(
    alloc: Global,
    topics: &mut Topics,
    line: &[u8],
    piece: &Piece,
    text: &mut Bytes,
) -> Result<(), NoMemory>
    ensures { OnOk result (Tells topics.old text.old topics.new text.new
        (record { stamp = piece.now.stamp; line = line.now; event = piece.now.event } ∷ [])) }
{
    text.append(line)?;
    match &piece.event {
        Some(event) => {
            accept_event(alloc, topics, event.value(), text)?;
            Ok(())
        }
        None => Ok(()),
    }
}

/// Adds the lines of the pieces at the front that have a stamp, of those that begin at a place, and moves the
/// place behind them.
fn put_some(
    alloc: Global,
    topics: &mut Topics,
    stamp: u64,
    lines: &[u8],
    pieces: &[Piece],
    start: &mut usize,
    next: &mut usize,
    text: &mut Bytes,
) -> Result<(), NoMemory>
    ensures told { OnOk result (Tells topics.old text.old topics.new text.new
        (front_with (λ p. p.stamp) stamp
        (pieces_in (drop start.old lines.now) (drop next.old pieces.now)))) }
    ensures rest { OnOk result (pieces_in (drop start.new lines.now) (drop next.new pieces.now)
        ≡ behind_with (λ p. p.stamp) stamp
        (pieces_in (drop start.old lines.now) (drop next.old pieces.now))) }
{
    'putting: while let Some((piece, others)) = behind(pieces, *next).split_first() {
        if piece.stamp != stamp {
            return Ok(());
        }
        let (line, left) = split_lines(behind(lines, *start), piece.size);
        put_piece(alloc, topics, line, piece, text)?;
        *start = lines.len() - left.len();
        *next = pieces.len() - others.len();
    }
    Ok(())
}

/// Adds the lines of the pieces of a part at its front that have a stamp, and leaves those behind them.
fn put_front(
    alloc: Global,
    topics: &mut Topics,
    stamp: u64,
    part: &mut Printed,
    text: &mut Bytes,
) -> Result<(), NoMemory>
    ensures told { OnOk result (Tells topics.old text.old topics.new text.new
        (front_with (λ p. p.stamp) stamp part.old)) }
    ensures rest { OnOk result (part.new ≡ behind_with (λ p. p.stamp) stamp part.old) }
{
    put_some(
        alloc,
        topics,
        stamp,
        part.lines.as_slice(),
        part.pieces.as_slice(),
        &mut part.start,
        &mut part.next,
        text,
    )
}

/// Adds the lines of the pieces at the front of each part that have a stamp, one after the other, and leaves
/// those behind them.
fn put_fronts(
    alloc: Global,
    topics: &mut Topics,
    stamp: u64,
    parts: &mut [Printed],
    text: &mut Bytes,
) -> Result<(), NoMemory>
    ensures told { OnOk result (Tells topics.old text.old topics.new text.new
        (flat_map (front_with (λ p. p.stamp) stamp) parts.old)) }
    ensures rests { OnOk result (parts.new ≡ map (behind_with (λ p. p.stamp) stamp) parts.old) }
{
    if let Some((first, others)) = parts.split_first_mut() {
        put_front(alloc, topics, stamp, first, text)?;
        put_fronts(alloc, topics, stamp, others, text)?;
    }
    Ok(())
}

/// Adds the lines of parts, merged by so many stamps behind one.
fn put_merged(
    alloc: Global,
    topics: &mut Topics,
    from: u64,
    count: usize,
    parts: &mut [Printed],
    text: &mut Bytes,
) -> Result<(), NoMemory>
    ensures { OnOk result (Tells topics.old text.old topics.new text.new
        (merged (λ p. p.stamp) from count parts.old)) }
{
    let mut stamp = from;
    'merging: for _ in 0..count {
        let Some(next) = stamp.checked_add(1) else {
            return Err(NoMemory);
        };
        put_fronts(alloc, topics, next, parts, text)?;
        stamp = next;
    }
    Ok(())
}

/// Adds the text of what lives tell, which were printed in parts, each some lives of the same tasks. `count`
/// stamps follow on `from`, and what each part tells stands by these: with each stamp comes what the first
/// part has with it, then what the next ones have. So it is the text of the effects of all lives, by stamp
/// and then by life, behind the events that `topics` has taken, and these take theirs. It answers NoMemory
/// also where stamps come to their end. What the parts tell from then on is any, and after NoMemory so are
/// the text and the topics.
pub fn put_printed(
    alloc: Global,
    topics: &mut Topics,
    parts: &mut [Printed],
    from: u64,
    count: usize,
    text: &mut Bytes,
) -> Result<(), NoMemory>
    ensures text { (tasks : List TaskNames) (events : List EventValue) (fs : List (ℕ → List Effect))
        → StandsFor events topics.old → Each HaveTheirStamps fs
        → parts.old ≡ map (λ f. map (piece_of tasks) (by_stamp from count f)) fs
        → OnOk result (text.new
        ≡ text.old ++ text_behind tasks events (by_stamp from count (side_by_side fs))) }
    ensures topics { (tasks : List TaskNames) (events : List EventValue) (fs : List (ℕ → List Effect))
        → StandsFor events topics.old → Each HaveTheirStamps fs
        → parts.old ≡ map (λ f. map (piece_of tasks) (by_stamp from count f)) fs
        → OnOk result (StandsFor
        (events ++ events_of (by_stamp from count (side_by_side fs))) topics.new) }
{
    put_merged(alloc, topics, from, count, parts, text)
}
