//! A decision, which only `decide` makes.

ghost use Rattle.std.specs.Prelude.{◌≡◌, ◌+◌, false, IsTrue};
ghost use Rattle.kap_base.specs.Points.{is_time};
ghost use Rattle.reply_bodies.specs.Asks.{IsFailed, change_of};
ghost use Rattle.kap_service.specs.Causes.{AreLater, HasFailed};
ghost use Rattle.kap_service.specs.Stores.{IsDecided, IsDecision, IsDueReply, Reached};
ghost use Rattle.kap_service.specs.Values.{Stores};

use crate::engine::Engine;
use kap_http::{Ask, Reply};
use std::alloc::Global;
use std::marker::{Model, PhantomData};

/// The reply to an ask that an engine of this kind decided. Only `decide` makes one.
#[derive(Drop)]
pub struct Decided<'a, E: Engine> {
    ask: &'a Ask,
    moment: i64,
    changes: u64,
    reply: Reply,
    of: PhantomData<E>,
}

impl<'a, E: Engine> Model for Decided<'a, E> {
    ghost use Rattle.kap_service.specs.Stores.{IsDecision};
    ghost use Rattle.kap_service.specs.Values.{Decisions};

    ghost Value = { Decisions };

    ghost view = { λ d. record {
      ask = d.ask.now;
      moment = d.moment;
      changes = d.changes;
      reply = d.reply;
    } };

    ghost invariant = { λ d. IsDecision E.value E.due E.follows (record {
      ask = d.ask.now;
      moment = d.moment;
      changes = d.changes;
      reply = d.reply;
    }) };
}

impl<'a, E: Engine> Decided<'a, E> {
    /// What was asked.
    pub fn ask(&self) -> &Ask
        ensures { result.now ≡ self.entry.now.ask }
    {
        self.ask
    }

    /// The moment at which it was decided, in nanoseconds from 1970-01-01T00:00:00Z on.
    pub fn moment(&self) -> i64
        ensures { result ≡ self.entry.now.moment }
    {
        self.moment
    }

    /// How many changes the store had before.
    pub fn changes(&self) -> u64
        ensures { result ≡ self.entry.now.changes }
    {
        self.changes
    }

    /// The status of the reply.
    pub fn status(&self) -> u16
        ensures { result ≡ self.entry.now.reply.status }
    {
        self.reply.status
    }

    /// The reply: the one that was due to this ask and moment by what an engine with as many changes held, and
    /// what follows behind it; or 500 or 503.
    pub fn reply(self) -> Reply
        ensures reply { result ≡ self.entry.reply }
        ensures decided { IsDecision E.value E.due E.follows self.entry }
    {
        self.reply
    }
}

/// Answers an ask on the engine, which then is what follows behind that reply.
pub fn decide<'a, E: Engine>(
    alloc: Global,
    engine: &mut E,
    ask: &'a Ask,
    now: i64,
) -> Decided<'a, E>
    requires unspent { (E.value engine.old).spent ≡ false }
    requires time { IsTrue (is_time now) }
    ensures own { (result.ask ≡ ask.now) × (result.moment ≡ now) }
    ensures on { result.changes ≡ (E.value engine.old).changes }
    ensures due { IsDueReply (E.due engine.old ask.now now) result.reply }
    ensures next { E.follows engine.old ask.now now result.reply engine.new }
    ensures exact { E.right engine.old → (IsFailed result.reply.status → ⊥)
        → (E.value engine.new).changes
        ≡ (E.value engine.old).changes + change_of ask.now result.reply.status }
    ensures usable { (IsFailed result.reply.status → ⊥) → (E.value engine.new).spent ≡ false }
    ensures later { AreLater (E.value engine.old).faults (E.value engine.new).faults }
    ensures cause { E.right engine.old → result.reply.status ≡ 500
        → HasFailed (E.value engine.old).faults (E.value engine.new).faults }
    ensures right { E.right engine.old → E.right engine.new }
    ensures stores { E.right engine.old → (store : Stores) → E.leaves engine.new store
        → Reached (E.leaves engine.old)
        (IsDecided ask.now result.reply.status (E.value engine.new).own) store }
{
    let changes = engine.changes();
    let reply = engine.reply(alloc, ask, now);
    Decided {
        ask,
        moment: now,
        changes,
        reply,
        of: PhantomData,
    }
}
