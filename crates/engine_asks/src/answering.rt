//! An ask is answered.

ghost use Rattle.std.specs.Prelude.{◌≡◌, ◌⊎◌, ◌+◌, ◌≤◌, false, IsTrue, List};
ghost use Rattle.kap_base.specs.Points.{is_time};
ghost use Rattle.kap_base.specs.Words.{HasRisen};
ghost use Rattle.kap_io.specs.Moments.{Moments};
ghost use Rattle.lambda_types.specs.Builds.{AtMostOneMore};
ghost use Rattle.store_records.specs.declared.rec.Rec.{Rec};
ghost use Rattle.kap_engine.specs.Engines.{IsEngine};
ghost use Rattle.reply_bodies.specs.Asks.{IsFailed, change_of};
ghost use Rattle.engine_asks.specs.Nexts.{IsCounted, IsNext, before_or_next, stands_counted};
ghost use Rattle.engine_asks.specs.Replies.{HasScript, IsReplyOrFailed, WouldChange};

use crate::changing::act;
use crate::defining::define;
use crate::writing::write;
use kap_engine::Engine;
use kap_http::{Ask, Reply};
use kap_io::{Disk, Gate};
use lambda_types::Patterns;
use net_run::NumberingNode;
use node_set::ScriptNode;
use reply_bodies::{done_reply, tasks_reply, topic_reply, topics_reply};
use std::alloc::Global;
use std::thread::Threads;

/// Answers an ask.
fn answer<
    D: Disk,
    P: Patterns,
    N: ScriptNode + NumberingNode + Send,
    R: Threads + Sync,
    G: Gate + Sync,
>(
    rt: &R,
    alloc: Global,
    engine: &mut Engine<N>,
    disk: &mut D,
    pats: &mut P,
    gate: &G,
    ask: &Ask,
    now: i64,
) -> Reply
    requires unspent { engine.old.spent ≡ false }
    requires time { IsTrue (is_time now) }
    ensures reply { IsReplyOrFailed (P.refusals pats.old) (P.refusals pats.new) (P.refused pats.new)
        engine.old.store.kept.tasks engine.old.run.topics now ask.now result }
    ensures instead { result.status ≡ 500 → WouldChange (P.refusals pats.old) (P.refusals pats.new)
        (P.refused pats.new) engine.old.store.kept.tasks engine.old.run.topics now ask.now }
    ensures next { IsTrue D.tells → (rs : List Rec)
        → (at : IsEngine N.Node N.planned rs (D.seen disk.old) (D.may_leave disk.old) engine.old)
        → (IsFailed result.status → ⊥) → IsNext N.Node N.planned rs at.full.good.tasks
        engine.old.stored (D.seen disk.new) (D.may_leave disk.new) engine.new
        ask.now now result.status }
    ensures any_moment { IsTrue D.tells → (rs : List Rec)
        → IsEngine N.Node N.planned rs (D.seen disk.old) (D.may_leave disk.old) engine.old
        → Moments D.moment D.may_leave D.left_since disk.old disk.new
        (before_or_next N.Node N.planned rs ask.now now) }
    ensures usable { (IsFailed result.status → ⊥) → engine.new.spent ≡ false }
    ensures any_cause { HasScript engine.old.store.kept.tasks ask.now
        → result.status ≡ 500 → HasRisen (D.faults disk.old) (D.faults disk.new)
        ⊎ HasRisen (P.refusals pats.old) (P.refusals pats.new) }
    ensures later { D.faults disk.old ≤ D.faults disk.new }
    ensures counted { AtMostOneMore (P.refusals pats.old) (P.refusals pats.new) }
{
    match ask {
        Ask::Ping => done_reply(alloc),
        Ask::Write(ask) => write(rt, alloc, engine, disk, gate, ask, now),
        Ask::Tasks => tasks_reply(alloc, engine.store().tasks()),
        Ask::Define(ask) => define(alloc, engine, disk, pats, ask),
        Ask::Task(ask) => act(alloc, engine, disk, pats, ask),
        Ask::Topics => topics_reply(alloc, engine.topics()),
        Ask::Topic(ask) => topic_reply(alloc, engine.topics(), &ask.name),
    }
}

/// Answers an ask at a moment, in nanoseconds from 1970-01-01T00:00:00Z on, by an engine that was made on this
/// disk: with the reply that is due by what the store has, and the change is done that is asked for.
///
/// 500 comes in place of no refusal, and only where the disk's count of faults, or the count of patterns that
/// were refused, rose in this call; on a disk that doesn't tell its bytes that holds where the script of the
/// task that is asked for is that of a task. 503 comes where memory ran out. Behind these the change is
/// stored or not, never in part, and the engine may be spent: it is made anew. Behind another refusal nothing
/// has changed.
pub fn answer_ask<
    D: Disk,
    P: Patterns,
    N: ScriptNode + NumberingNode + Send,
    R: Threads + Sync,
    G: Gate + Sync,
>(
    rt: &R,
    alloc: Global,
    engine: &mut Engine<N>,
    disk: &mut D,
    pats: &mut P,
    gate: &G,
    ask: &Ask,
    now: i64,
) -> Reply
    requires unspent { engine.old.spent ≡ false }
    requires time { IsTrue (is_time now) }
    // The reply is the one that is due; 500 comes only where this would say that a change is done.
    ensures reply { IsReplyOrFailed (P.refusals pats.old) (P.refusals pats.new) (P.refused pats.new)
        engine.old.store.kept.tasks engine.old.run.topics now ask.now result }
    ensures instead { result.status ≡ 500 → WouldChange (P.refusals pats.old) (P.refusals pats.new)
        (P.refused pats.new) engine.old.store.kept.tasks engine.old.run.topics now ask.now }
    // The store is the next one.
    ensures next { IsTrue D.tells → (rs : List Rec)
        → (at : IsEngine N.Node N.planned rs (D.seen disk.old) (D.may_leave disk.old) engine.old)
        → (IsFailed result.status → ⊥) → IsNext N.Node N.planned rs at.full.good.tasks
        engine.old.stored (D.seen disk.new) (D.may_leave disk.new) engine.new
        ask.now now result.status }
    // It has one change more exactly where one was asked for and is done. What was stored before stands in front
    // of what is stored then, and behind it only what the engine tells of as stored.
    ensures changes { IsTrue D.tells → (rs : List Rec)
        → IsEngine N.Node N.planned rs (D.seen disk.old) (D.may_leave disk.old) engine.old
        → (IsFailed result.status → ⊥) → IsCounted N.Node N.planned rs ask.now
        result.status (D.seen disk.new) (D.may_leave disk.new) engine.new }
    ensures exact { IsTrue D.tells → (rs : List Rec)
        → IsEngine N.Node N.planned rs (D.seen disk.old) (D.may_leave disk.old) engine.old
        → (IsFailed result.status → ⊥) → engine.new.store.kept.changes
        ≡ engine.old.store.kept.changes + change_of ask.now result.status }
    // At each moment each image stands for a right store, as it was or with the change.
    ensures any_moment { IsTrue D.tells → (rs : List Rec)
        → IsEngine N.Node N.planned rs (D.seen disk.old) (D.may_leave disk.old) engine.old
        → Moments D.moment D.may_leave D.left_since disk.old disk.new
        (before_or_next N.Node N.planned rs ask.now now) }
    ensures any_count { IsTrue D.tells → (rs : List Rec)
        → IsEngine N.Node N.planned rs (D.seen disk.old) (D.may_leave disk.old) engine.old
        → Moments D.moment D.may_leave D.left_since disk.old disk.new
        (stands_counted N.Node N.planned rs ask.now) }
    ensures usable { (IsFailed result.status → ⊥) → engine.new.spent ≡ false }
    // 500 has its cause on any disk, where the script of the task that is asked for is that of a task. So it is
    // where the disk tells its bytes.
    ensures any_cause { HasScript engine.old.store.kept.tasks ask.now
        → result.status ≡ 500 → HasRisen (D.faults disk.old) (D.faults disk.new)
        ⊎ HasRisen (P.refusals pats.old) (P.refusals pats.new) }
    ensures cause { IsTrue D.tells → (rs : List Rec)
        → IsEngine N.Node N.planned rs (D.seen disk.old) (D.may_leave disk.old) engine.old
        → result.status ≡ 500 → HasRisen (D.faults disk.old) (D.faults disk.new)
        ⊎ HasRisen (P.refusals pats.old) (P.refusals pats.new) }
    ensures later { D.faults disk.old ≤ D.faults disk.new }
    ensures counted { AtMostOneMore (P.refusals pats.old) (P.refusals pats.new) }
{
    answer(rt, alloc, engine, disk, pats, gate, ask, now)
}
