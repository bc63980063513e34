//! Lines of effects, made before it is known what others do.

ghost use Rattle.std.specs.Prelude.{◌≡◌, ◌++◌, ◌∷◌, [], IfOk, None, OnOk, Some, length, map};
ghost use Rattle.effect_text.specs.Lines.{out_line};
ghost use Rattle.effect_text.specs.Pieces.{AreCut, piece_of, pieces_in};

use crate::effects::{id_of, node_of, put_out_line};
use crate::names::TaskNames;
use kap_base::{Bytes, Effect, Event, NoMemory, Point, Shared, What};
use std::alloc::Global;
use std::marker::Model;

/// An effect whose line is printed.
#[derive(Drop)]
pub(crate) struct Piece {
    /// Its stamp.
    pub(crate) stamp: u64,
    /// How many bytes its line has: none where it is an event.
    pub(crate) size: usize,
    /// Its event, where it is one.
    pub(crate) event: Option<Shared<Event>>,
}

/// What some lives tell, one effect after the other: the lines of logged points, and the events, whose own
/// lines need the events of all lives. Contracts see each effect as its stamp, its line and its event.
#[derive(Drop)]
pub struct Printed {
    // The lines, one behind the other.
    pub(crate) lines: Bytes,
    pub(crate) pieces: Vec<Piece>,
    // Where what is not put out yet begins: its first byte, and its first piece.
    pub(crate) start: usize,
    pub(crate) next: usize,
}

impl Model for Printed {
    ghost use Rattle.std.specs.Coded.{codes};
    ghost use Rattle.std.specs.Prelude.{List, drop};
    ghost use Rattle.kap_base.specs.Maps.{key_map_code};
    ghost use Rattle.effect_text.specs.Pieces.{PieceValue, pieces_in};

    ghost Value = { List PieceValue };

    ghost view = { λ p. pieces_in (drop p.start p.lines) (drop p.next p.pieces.items) };
}

impl Printed {
    /// Nothing is told.
    pub fn new(alloc: Global) -> Printed
        ensures { result ≡ [] }
    {
        Printed {
            lines: Bytes::new(alloc),
            pieces: Vec::new(alloc),
            start: 0,
            next: 0,
        }
    }

    /// How many effects are told.
    #[tactic(auto, using(crate::proofs::PieceLaws::as_many_behind))]
    pub fn len(&self) -> usize
        ensures { result ≡ length self.now }
    {
        self.pieces.len().saturating_sub(self.next)
    }
}

/// Adds the line of a logged point.
fn add_line(
    stamp: u64,
    id: &[u8],
    node: &[u8],
    point: &Point,
    lines: &mut Bytes,
    pieces: &mut Vec<Piece>,
) -> Result<(), NoMemory>
    requires cut { AreCut lines.old pieces.old.items }
    ensures cut { OnOk result (AreCut lines.new pieces.new.items) }
    ensures piece { OnOk result (pieces_in lines.new pieces.new.items
        ≡ pieces_in lines.old pieces.old.items
        ++ record { stamp = stamp; line = out_line id.now node.now point.now; event = None } ∷ []) }
{
    let start = lines.len();
    put_out_line(id, node, point, lines)?;
    pieces.push(Piece {
        stamp,
        size: lines.len() - start,
        event: None,
    })?;
    Ok(())
}

/// Adds an event, which has no line yet.
#[tactic(auto, using(crate::proofs::PieceLaws::event_cut, crate::proofs::PieceLaws::event_piece))]
fn add_event(
    stamp: u64,
    event: Shared<Event>,
    lines: &Bytes,
    pieces: &mut Vec<Piece>,
) -> Result<(), NoMemory>
    requires cut { AreCut lines.now pieces.old.items }
    ensures cut { OnOk result (AreCut lines.now pieces.new.items) }
    ensures piece { OnOk result (pieces_in lines.now pieces.new.items
        ≡ pieces_in lines.now pieces.old.items
        ++ record { stamp = stamp; line = []; event = Some event } ∷ []) }
{
    let _seen = lines;
    pieces.push(Piece {
        stamp,
        size: 0,
        event: Some(event),
    })?;
    Ok(())
}

/// Adds what an effect tells.
fn add_piece(
    tasks: &[TaskNames],
    effect: Effect,
    lines: &mut Bytes,
    pieces: &mut Vec<Piece>,
) -> Result<(), NoMemory>
    requires cut { AreCut lines.old pieces.old.items }
    ensures cut { OnOk result (AreCut lines.new pieces.new.items) }
    ensures piece { OnOk result (pieces_in lines.new pieces.new.items
        ≡ pieces_in lines.old pieces.old.items ++ piece_of tasks.now effect ∷ []) }
{
    let Effect {
        stamp,
        life,
        node,
        what,
        ..
    } = effect;
    match what {
        What::Line(point) => {
            let id = id_of(tasks, life);
            let name = node_of(tasks, life, node);
            add_line(stamp.0, id, name, point.value(), lines, pieces)
        }
        What::Event(event) => add_event(stamp.0, event, lines, pieces),
    }
}

/// Prints the lines of the points that effects log, and keeps their events. It needs nothing but these
/// effects, so that lives may be printed side by side.
pub fn print_lines(
    alloc: Global,
    tasks: &[TaskNames],
    effects: Vec<Effect>,
) -> Result<Printed, NoMemory>
    ensures { IfOk result (λ printed. printed ≡ map (piece_of tasks.now) effects.items) }
{
    let mut lines = Bytes::new(alloc);
    let mut pieces = Vec::new(alloc);
    'printing: for effect in effects {
        add_piece(tasks, effect, &mut lines, &mut pieces)?;
    }
    Ok(Printed {
        lines,
        pieces,
        start: 0,
        next: 0,
    })
}
