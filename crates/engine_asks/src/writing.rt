//! Points are written.

ghost use Rattle.std.specs.Prelude.{◌≡◌, ◌≢◌, ◌≤◌, false, Err, IfErr, IfOk, IsTrue, List, Ok};
ghost use Rattle.std.specs.List.{list_all};
ghost use Rattle.kap_base.specs.Points.{is_time};
ghost use Rattle.kap_base.specs.Words.{HasRisen};
ghost use Rattle.kap_io.specs.Moments.{Moments};
ghost use Rattle.line_points.specs.declared.fault.LineFault.{LineFault as LineFaultValue};
ghost use Rattle.store_records.specs.Lines.{is_of};
ghost use Rattle.store_records.specs.declared.rec.Rec.{Rec};
ghost use Rattle.kap_engine.specs.Engines.{IsEngine};
ghost use Rattle.kap_engine.specs.Writing.{stands_writing};
ghost use Rattle.reply_bodies.specs.Asks.{IsFailed, is_done};
ghost use Rattle.reply_bodies.specs.Bodies.{done_reply};
ghost use Rattle.engine_asks.specs.Nexts.{HasPointsOf, before_or_written};
ghost use Rattle.engine_asks.specs.Replies.{IsDueOrFailed, points_asked, reply_to_lines, unit_of};

use crate::faults::{fault_reply, line_reply};
use kap_base::Points;
use kap_engine::Engine;
use kap_http::{Precision, Reply, WriteAsk};
use kap_io::{Disk, Gate};
use line_points::{BodyFault, Mode, Unit, read_body};
use net_run::NumberingNode;
use node_set::ScriptNode;
use reply_bodies::done_reply;
use std::alloc::Global;
use std::thread::Threads;

/// What times count.
fn unit_of(precision: Precision) -> Unit
    ensures { result ≡ unit_of precision }
{
    match precision {
        Precision::Ns => Unit::Ns,
        Precision::Us => Unit::Us,
        Precision::Ms => Unit::Ms,
        Precision::S => Unit::S,
        Precision::M => Unit::M,
        Precision::H => Unit::H,
    }
}

/// The points of the lines that are to be written.
fn points_of(alloc: Global, ask: &WriteAsk, now: i64) -> Result<Points, BodyFault>
    requires time { IsTrue (is_time now) }
    ensures points { IfOk result (λ points. points_asked ask.now now ≡ Ok points) }
    ensures of { IfOk result (λ points. IsTrue (list_all (is_of ask.now.db ask.now.rp) points)) }
    ensures fault { IfErr result (λ f. f.fault ≢ LineFaultValue.NoMemory
        → points_asked ask.now now ≡ Err f) }
{
    let mode = Mode::Live {
        unit: unit_of(ask.precision),
        now,
    };
    read_body(alloc, ask.body.as_slice(), &ask.db, &ask.rp, &mode)
}

/// Writes points to the engine, which are of this ask's database and policy.
fn write_points<D: Disk, N: ScriptNode + NumberingNode + Send, R: Threads + Sync, G: Gate + Sync>(
    rt: &R,
    alloc: Global,
    engine: &mut Engine<N>,
    disk: &mut D,
    gate: &G,
    ask: &WriteAsk,
    points: Points,
) -> Reply
    requires unspent { engine.old.spent ≡ false }
    requires of { IsTrue (list_all (is_of ask.now.db ask.now.rp) points) }
    ensures reply { IsDueOrFailed done_reply result }
    ensures next { IsTrue D.tells → (rs : List Rec)
        → (at : IsEngine N.Node N.planned rs (D.seen disk.old) (D.may_leave disk.old) engine.old)
        → (IsFailed result.status → ⊥) → HasPointsOf N.Node N.planned rs at.full.good.tasks
        (Ok points) (D.seen disk.new) (D.may_leave disk.new) engine.new }
    ensures any_moment { IsTrue D.tells → (rs : List Rec)
        → IsEngine N.Node N.planned rs (D.seen disk.old) (D.may_leave disk.old) engine.old
        → Moments D.moment D.may_leave D.left_since disk.old disk.new
        (stands_writing N.Node N.planned rs points) }
    ensures usable { (IsFailed result.status → ⊥) → engine.new.spent ≡ false }
    ensures cause { result.status ≡ 500 → HasRisen (D.faults disk.old) (D.faults disk.new) }
    ensures later { D.faults disk.old ≤ D.faults disk.new }
{
    match engine.write(rt, alloc, disk, &ask.db, &ask.rp, points, gate) {
        Ok(_text) => done_reply(alloc),
        Err(fault) => fault_reply(alloc, fault),
    }
}

/// Writes the points of the lines that an ask has, once each line is read: 204, or 400 with the first faulty
/// line, where nothing has changed.
pub(crate) fn write<
    D: Disk,
    N: ScriptNode + NumberingNode + Send,
    R: Threads + Sync,
    G: Gate + Sync,
>(
    rt: &R,
    alloc: Global,
    engine: &mut Engine<N>,
    disk: &mut D,
    gate: &G,
    ask: &WriteAsk,
    now: i64,
) -> Reply
    requires unspent { engine.old.spent ≡ false }
    requires time { IsTrue (is_time now) }
    ensures reply { IsDueOrFailed (reply_to_lines (points_asked ask.now now)) result }
    ensures instead { result.status ≡ 500
        → reply_to_lines (points_asked ask.now now) ≡ done_reply }
    ensures next { IsTrue D.tells → (rs : List Rec)
        → (at : IsEngine N.Node N.planned rs (D.seen disk.old) (D.may_leave disk.old) engine.old)
        → IsTrue (is_done result.status) → HasPointsOf N.Node N.planned rs at.full.good.tasks
        (points_asked ask.now now) (D.seen disk.new) (D.may_leave disk.new) engine.new }
    ensures still { is_done result.status ≡ false → (IsFailed result.status → ⊥)
        → (engine.new ≡ engine.old) × (disk.new ≡ disk.old) }
    ensures any_moment { IsTrue D.tells → (rs : List Rec)
        → IsEngine N.Node N.planned rs (D.seen disk.old) (D.may_leave disk.old) engine.old
        → Moments D.moment D.may_leave D.left_since disk.old disk.new
        (before_or_written N.Node N.planned rs ask.now now) }
    ensures usable { (IsFailed result.status → ⊥) → engine.new.spent ≡ false }
    ensures cause { result.status ≡ 500 → HasRisen (D.faults disk.old) (D.faults disk.new) }
    ensures later { D.faults disk.old ≤ D.faults disk.new }
{
    match points_of(alloc, ask, now) {
        Ok(points) => write_points(rt, alloc, engine, disk, gate, ask, points),
        Err(fault) => line_reply(alloc, fault),
    }
}
