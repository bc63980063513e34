//! What lies under the lock.

ghost use Rattle.std.specs.Prelude.{◌≡◌, ◌≢◌, ◌&&◌, ◌≤◌, [], false, length, true, IfErr, IfOk, IsTrue};
ghost use mathlib.Core.List.{IsPrefix};
ghost use Rattle.kap_base.specs.Points.{is_time};
ghost use Rattle.reply_bodies.specs.Asks.{IsFailed};
ghost use Rattle.kap_service.specs.Asks.{status_of};
ghost use Rattle.kap_service.specs.Causes.{AreLater};
ghost use Rattle.kap_service.specs.Desks.{WasDecided};
ghost use Rattle.kap_service.specs.Kept.{posted};
ghost use Rattle.kap_service.specs.Stores.{AreAllBehind};
ghost use Rattle.kap_service.specs.Values.{Stores};

use crate::asks::changes;
use crate::decided::Decided;
use crate::engine::Engine;
use crate::fault::ShareFault;
use crate::judged::{enter, failed_reply, judged, status_in};
use crate::seat::Seat;
use crate::showing::show;
use kap_http::{Ask, Reply};
use std::alloc::Global;
use std::marker::{Brand, Model};
use std::sync::Wait;
use std::sync::ledger::{Book, Ledger};
use topic_board::{Front, Naming, Poster, Shown};

/// The ledger of replies that say that the store failed. It knows how often the engine had failed as the
/// service began, and whether the engine was right then; who makes a service picks both.
pub trait Since: Ledger {
    ghost use Rattle.std.specs.Prelude.{Bool};
    ghost use Rattle.kap_service.specs.Values.{Faults};

    /// How often the disk had failed and a pattern was refused as the service began.
    ghost before: { Faults };

    /// Whether the engine was right as the service began.
    ghost owned: { Bool };
}

impl Since for Brand {
    ghost use Rattle.std.specs.Prelude.{false};

    ghost before = { record { disk = 0; patterns = 0 } };

    ghost owned = { false };
}

/// Whether memory was short before, or the status says so, or something lacks.
fn is_short(before: bool, status: u16, lacks: bool) -> bool
    ensures { result ≡ false → (before ≡ false) × ((status ≢ 503) × (lacks ≡ false)) }
{
    before || status == 503 || lacks
}

/// Keeps what is told now, and says that it does: what was kept begins it. Else that is kept on.
fn hear<J: Naming>(kept: &mut Front<J>, told: Front<J>) -> bool
    ensures later { IsPrefix kept.old kept.new }
    ensures heard { result ≡ true → kept.new ≡ told }
{
    if kept.begins(&told) {
        *kept = told;
        return true;
    }
    false
}

/// Whether as many transitions were told as the engine has, where it isn't spent.
fn has_told_all<E: Engine, J: Naming>(engine: &E, told: &Front<J>) -> bool
    ensures unspent { result ≡ true → (E.value engine.now).spent ≡ false }
    ensures all { result ≡ true → E.right engine.now → (store : Stores)
        → E.leaves engine.now store → length told.now ≡ length store.stored }
{
    if engine.spent() {
        return false;
    }
    told.len() == engine.count()
}

/// Whether what was told is kept, and is all.
fn is_shown(heard: bool, all: bool) -> bool
    ensures { result ≡ (heard && all) }
{
    heard && all
}

/// What lies under the lock: the engine, what posts to the board, and the two books, with what they say as
/// numbers.
#[derive(Drop)]
pub(crate) struct State<
    E: Engine,
    J: Naming,
    O: Drop,
    T: Shown<J, O>,
    R: Wait + Drop,
    L1: Ledger,
    L2: Since,
> {
    pub(crate) engine: E,
    pub(crate) poster: Poster<J, O, T, R>,
    pub(crate) first: Book<L1>,
    pub(crate) second: Book<L2>,
    pub(crate) firsts: u64,
    pub(crate) seconds: u64,
    pub(crate) short: bool,
}

impl<E: Engine, J: Naming, O: Drop, T: Shown<J, O>, R: Wait + Drop, L1: Ledger, L2: Since> Model
    for State<E, J, O, T, R, L1, L2> {
    ghost use Rattle.std.specs.Prelude.{◌≡◌, [], false, IsTrue};
    ghost use Rattle.kap_service.specs.Kept.{IsKept};
    ghost use Rattle.kap_service.specs.Values.{States};

    ghost Value = { States };

    ghost view = { λ s. record {
      engine = E.value s.engine;
      first = s.first.total;
      second = s.second.total;
      short = s.short;
      posts = s.poster;
    } };

    // Only a reply that says that the store failed, or that memory ran out, leaves the engine spent; and while
    // nothing was short, all that was posted is published.
    ghost invariant = { λ s. (s.firsts ≡ s.first.total)
        × (s.seconds ≡ s.second.total)
        × (s.second.total ≡ 0 → s.short ≡ false → (E.value s.engine).spent ≡ false)
        × (s.short ≡ false → s.poster.pending ≡ [])
        × (IsTrue L2.owned → IsKept L2.before (E.value s.engine).faults (E.right s.engine)
        (E.leaves s.engine) s.first.total s.second.total s.short s.poster) };
}

impl<E: Engine, J: Naming, O: Drop, T: Shown<J, O>, R: Wait + Drop, L1: Ledger, L2: Since> State<
    E,
    J,
    O,
    T,
    R,
    L1,
    L2,
> {
    /// Where the engine stands as the service begins, and all is posted and published.
    pub(crate) fn new(
        engine: E,
        poster: Poster<J, O, T, R>,
        first: Book<L1>,
        second: Book<L2>,
        began: u64,
    ) -> State<E, J, O, T, R, L1, L2>
        requires unspent { (E.value engine).spent ≡ false }
        requires books { (first.total ≡ began) × (second.total ≡ 0) }
        requires began { began ≡ (E.value engine).changes }
        requires faults { AreLater L2.before (E.value engine).faults }
        requires owned { IsTrue L2.owned → E.right engine }
        requires posted { IsTrue L2.owned → (store : Stores) → E.leaves engine store
            → posted poster ≡ store.stored }
        requires none { poster.pending ≡ [] }
    {
        State {
            engine,
            poster,
            first,
            second,
            firsts: began,
            seconds: 0,
            short: false,
        }
    }

    /// Answers an ask of a seat, enters the answer in the ledgers, and shows what was stored. Where a book
    /// is full the answer is 503.
    pub(crate) fn answer<'a>(
        &mut self,
        alloc: Global,
        seat: &mut Seat<J, O, T, L1, L2>,
        ask: &'a Ask,
        now: i64,
    ) -> Result<Decided<'a, E>, Reply>
        requires time { IsTrue (is_time now) }
        ensures own { IfOk result (λ d. (d.ask ≡ ask.now) × (d.moment ≡ now)) }
        ensures refusal { IfErr result (λ reply. IsFailed reply.status) }
        ensures behind { IsTrue L2.owned → IfOk result (λ d. seat.old.changes ≤ d.changes) }
        ensures seat { WasDecided ask.now (status_of result) seat.old seat.new }
        ensures look { (seat.new.known ≡ seat.old.known) × (seat.new.aways ≡ seat.old.aways) }
        ensures shown { IsTrue L2.owned → seat.new.shown ≡ true
            → IfOk result (AreAllBehind E.value E.right E.leaves ask.now seat.new.told) }
        ensures told { seat.new.shown ≡ true → seat.new.told ≡ self.new.posts.published }
    {
        self.first.audit(&mut seat.first);
        seat.answers = seat.answers.saturating_add(1);
        if self.seconds == u64::MAX || self.firsts == u64::MAX {
            let reply = failed_reply(alloc, ShareFault::NoMemory);
            self.short = true;
            seat.status = reply.status;
            let _heard = hear(&mut seat.told, self.poster.tell());
            seat.shown = false;
            return Err(reply);
        }
        let judged = judged(alloc, &mut self.engine, ask, now);
        let status = status_in(&judged);
        enter(
            &mut self.first,
            &mut seat.first,
            &mut self.firsts,
            changes(ask, status),
        );
        enter(
            &mut self.second,
            &mut seat.second,
            &mut self.seconds,
            status == 500,
        );
        let lacks = show(alloc, &mut self.engine, &mut self.poster);
        self.short = is_short(self.short, status, lacks);
        seat.status = status;
        let told = self.poster.tell();
        let all = has_told_all(&self.engine, &told);
        let heard = hear(&mut seat.told, told);
        let shown = is_shown(heard, all);
        seat.shown = shown;
        judged
    }
}
