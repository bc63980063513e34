//! An ask is answered on an engine.

ghost use Rattle.std.specs.Prelude.{◌≡◌, if◌then◌else◌, false, IsTrue, MatchBool, None, Some};
ghost use Rattle.kap_base.specs.Points.{is_time};
ghost use Rattle.kap_service.specs.Causes.{AreLater, HasFailed};
ghost use Rattle.kap_service.specs.Stores.{IsDecided, IsDueReply, Reached};
ghost use Rattle.kap_service.specs.Values.{Stores};
ghost use Rattle.reply_bodies.specs.Asks.{IsFailed};
ghost use Rattle.service_engine.specs.Engines.{AreRight, Follows, HasAnswered, IsDue, IsOver, IsRight, Leaves, faults_of, is_spent, own_of};

use engine_asks::answer_ask;
use kap_engine::Engine;
use kap_http::{Ask, Reply};
use kap_io::{Disk, NoGate};
use lambda_types::Patterns;
use net_run::NumberingNode;
use node_set::ScriptNode;
use std::alloc::Global;
use std::thread::Threads;

/// Whether a reply says that the store failed or that memory ran out.
fn is_failed(reply: &Reply) -> bool
    ensures { MatchBool result (IsFailed reply.now.status) (IsFailed reply.now.status → ⊥) }
{
    reply.status == 500 || reply.status == 503
}

/// An engine, unless it is let go.
fn kept<N: ScriptNode + NumberingNode + Send>(engine: Engine<N>, failed: bool) -> Option<Engine<N>>
    ensures { result ≡ (if failed then None else Some engine) }
{
    if failed {
        return None;
    }
    Some(engine)
}

/// Answers an ask on an engine that isn't spent. Behind a reply that isn't 500 or 503 it stands over its store.
fn answer_by<D: Disk, P: Patterns, N: ScriptNode + NumberingNode + Send, R: Threads + Sync>(
    rt: &R,
    alloc: Global,
    engine: &mut Engine<N>,
    disk: &mut D,
    pats: &mut P,
    ask: &Ask,
    now: i64,
) -> Reply
    requires unspent { engine.old.spent ≡ false }
    requires time { IsTrue (is_time now) }
    ensures due { IsDueReply (IsDue (Some engine.old) ask.now now) result }
    ensures next { HasAnswered N.Node N.planned D.tells D.seen D.moment D.may_leave D.left_since
        disk.old disk.new (P.refusals pats.old) (P.refusals pats.new) (P.refused pats.new)
        engine.old (Some engine.new) ask.now now result }
    ensures usable { (IsFailed result.status → ⊥) → engine.new.spent ≡ false }
    ensures later { AreLater (faults_of (D.faults disk.old) (P.refusals pats.old))
        (faults_of (D.faults disk.new) (P.refusals pats.new)) }
    ensures cause { IsRight N.Node N.planned D.tells (D.seen disk.old) (D.may_leave disk.old)
        (Some engine.old) → result.status ≡ 500
        → HasFailed (faults_of (D.faults disk.old) (P.refusals pats.old))
        (faults_of (D.faults disk.new) (P.refusals pats.new)) }
    ensures each { IsRight N.Node N.planned D.tells (D.seen disk.old) (D.may_leave disk.old)
        (Some engine.old) → AreRight N.Node N.planned (D.may_leave disk.new) }
    ensures over { IsRight N.Node N.planned D.tells (D.seen disk.old) (D.may_leave disk.old)
        (Some engine.old) → (IsFailed result.status → ⊥)
        → IsOver N.Node N.planned (D.seen disk.new) (D.may_leave disk.new) engine.new }
    ensures stores { IsRight N.Node N.planned D.tells (D.seen disk.old) (D.may_leave disk.old)
        (Some engine.old) → (store : Stores) → Leaves (D.may_leave disk.new) store
        → Reached (Leaves (D.may_leave disk.old))
        (IsDecided ask.now result.status engine.new.stored) store }
{
    answer_ask(rt, alloc, engine, disk, pats, &NoGate, ask, now)
}

/// Answers an ask on an engine that isn't spent. Behind 500 and 503 it is let go.
pub(crate) fn reply_by<
    D: Disk,
    P: Patterns,
    N: ScriptNode + NumberingNode + Send,
    R: Threads + Sync,
>(
    rt: &R,
    alloc: Global,
    engine: &mut Option<Engine<N>>,
    disk: &mut D,
    pats: &mut P,
    ask: &Ask,
    now: i64,
) -> Reply
    requires unspent { is_spent engine.old ≡ false }
    requires time { IsTrue (is_time now) }
    ensures due { IsDueReply (IsDue engine.old ask.now now) result }
    ensures next { Follows N.Node N.planned D.tells D.seen D.moment D.may_leave D.left_since
        disk.old disk.new (P.refusals pats.old) (P.refusals pats.new) (P.refused pats.new)
        engine.old engine.new ask.now now result }
    ensures usable { (IsFailed result.status → ⊥) → is_spent engine.new ≡ false }
    ensures later { AreLater (faults_of (D.faults disk.old) (P.refusals pats.old))
        (faults_of (D.faults disk.new) (P.refusals pats.new)) }
    ensures cause { IsRight N.Node N.planned D.tells (D.seen disk.old) (D.may_leave disk.old)
        engine.old → result.status ≡ 500
        → HasFailed (faults_of (D.faults disk.old) (P.refusals pats.old))
        (faults_of (D.faults disk.new) (P.refusals pats.new)) }
    ensures right { IsRight N.Node N.planned D.tells (D.seen disk.old) (D.may_leave disk.old)
        engine.old → IsRight N.Node N.planned D.tells (D.seen disk.new) (D.may_leave disk.new)
        engine.new }
    ensures stores { IsRight N.Node N.planned D.tells (D.seen disk.old) (D.may_leave disk.old)
        engine.old → (store : Stores) → Leaves (D.may_leave disk.new) store
        → Reached (Leaves (D.may_leave disk.old))
        (IsDecided ask.now result.status (own_of engine.new)) store }
{
    let Some(mut run) = engine.take() else {
        unreachable!()
    };
    let reply = answer_by(rt, alloc, &mut run, disk, pats, ask, now);
    *engine = kept(run, is_failed(&reply));
    reply
}
