//! The desk: what answers the requests of connections from a seat.

ghost use Rattle.std.specs.Prelude.{◌≡◌, false, IsTrue, None, Result};
ghost use Rattle.kap_base.specs.Points.{is_time};
ghost use Rattle.kap_base.specs.Words.{Answers};
ghost use Rattle.kap_http.specs.Calls.{AddsCall};
ghost use Rattle.kap_http.specs.Refusals.{as_reply};
ghost use Rattle.kap_http.specs.Replies.{out_of_memory};
ghost use Rattle.kap_http.specs.ReplyValues.{ReplyValue};
ghost use Rattle.kap_http.specs.Routes.{ask_of};
ghost use Rattle.kap_http.specs.declared.ask.Ask.{Ask as AskValue};
ghost use Rattle.kap_service.specs.Asks.{is_topic};
ghost use Rattle.kap_service.specs.Desks.{IsServed, IsServedSo, WasDecided};

use crate::asks::is_topic;
use crate::engine::Engine;
use crate::seat::Seat;
use crate::shared::Lock;
use crate::state::Since;
use kap_http::{Ask, Reply, Request, Serve, route};
use kap_io::Clock;
use std::alloc::Global;
use std::sync::Wait;
use std::sync::ledger::Ledger;
use topic_board::{Naming, Shown};

/// The reply to an ask that goes to the lock.
fn locked_reply<
    E: Engine,
    J: Naming,
    O: Drop,
    T: Shown<J, O>,
    R: Wait + Drop,
    L1: Ledger,
    L2: Since,
>(
    rt: &impl Wait,
    alloc: Global,
    lock: &Lock<E, J, O, T, R, L1, L2>,
    seat: &mut Seat<J, O, T, L1, L2>,
    ask: &Ask,
    now: i64,
) -> Reply
    requires time { IsTrue (is_time now) }
    ensures decided { WasDecided ask.now result.status seat.old seat.new }
    ensures look { (seat.new.known ≡ seat.old.known) × (seat.new.aways ≡ seat.old.aways) }
{
    match lock.answer(rt, alloc, seat, ask, now) {
        Ok(decided) => decided.reply(),
        Err(reply) => reply,
    }
}

/// The reply to an ask: by the seat where it is about topics, else by the lock.
fn reply_to<E: Engine, J: Naming, O: Drop, T: Shown<J, O>, R: Wait + Drop, L1: Ledger, L2: Since>(
    rt: &impl Wait,
    alloc: Global,
    lock: &Lock<E, J, O, T, R, L1, L2>,
    seat: &mut Seat<J, O, T, L1, L2>,
    clock: &impl Clock,
    ask: &Ask,
) -> Reply
    ensures { IsServedSo (is_topic ask.now) ask.now seat.old seat.new result }
{
    if is_topic(ask) {
        if let Some(reply) = seat.answer(alloc, ask) {
            return reply;
        }
    }
    locked_reply(rt, alloc, lock, seat, ask, clock.now())
}

/// The reply to a request: the refusal of its route, or that to what it asks.
fn served<E: Engine, J: Naming, O: Drop, T: Shown<J, O>, R: Wait + Drop, L1: Ledger, L2: Since>(
    rt: &impl Wait,
    alloc: Global,
    lock: &Lock<E, J, O, T, R, L1, L2>,
    seat: &mut Seat<J, O, T, L1, L2>,
    clock: &impl Clock,
    request: &Request,
) -> Reply
    ensures { (routed : Result AskValue ReplyValue)
        × Answers (out_of_memory false) routed (as_reply (ask_of request.now))
        × IsServed routed seat.old seat.new result }
{
    match route(alloc, request) {
        Err(reply) => reply,
        Ok(ask) => reply_to(rt, alloc, lock, seat, clock, &ask),
    }
}

/// What answers the requests of connections from a seat: what `route` refuses gets that refusal; an ask about
/// topics gets the seat's reply, and goes to the lock only where the seat's look was refused; each other ask
/// goes to the lock, at the moment that the clock tells.
#[derive(Drop)]
pub struct Desk<
    'a,
    E: Engine,
    J: Naming,
    O: Drop,
    T: Shown<J, O>,
    R: Wait + Drop,
    L1: Ledger,
    L2: Since,
    C: Clock,
    W: Wait,
> {
    /// What waits for the lock.
    pub rt: &'a W,
    /// The lock.
    pub lock: &'a Lock<E, J, O, T, R, L1, L2>,
    /// The seat.
    pub seat: &'a mut Seat<J, O, T, L1, L2>,
    /// What tells the moment.
    pub clock: &'a C,
}

impl<
    'a,
    E: Engine,
    J: Naming,
    O: Drop,
    T: Shown<J, O>,
    R: Wait + Drop,
    L1: Ledger,
    L2: Since,
    C: Clock,
    W: Wait,
> Desk<'a, E, J, O, T, R, L1, L2, C, W> {
    /// The reply to a request.
    pub fn answer(&mut self, alloc: Global, request: &Request) -> Reply
        ensures { (routed : Result AskValue ReplyValue)
            × Answers (out_of_memory false) routed (as_reply (ask_of request.now))
            × IsServed routed self.old.seat.now self.new.seat.now result }
    {
        served(self.rt, alloc, self.lock, self.seat, self.clock, request)
    }
}

impl<
    'a,
    E: Engine,
    J: Naming,
    O: Drop,
    T: Shown<J, O>,
    R: Wait + Drop,
    L1: Ledger,
    L2: Since,
    C: Clock,
    W: Wait,
> Serve for Desk<'a, E, J, O, T, R, L1, L2, C, W> {
    ghost served = { λ _. None };

    /// The reply of `answer`, whatever the number of the connection.
    fn serve(&mut self, alloc: Global, _number: u32, request: &Request) -> Reply
        ensures served { AddsCall None None _number request.now result }
        ensures answer { (routed : Result AskValue ReplyValue)
            × Answers (out_of_memory false) routed (as_reply (ask_of request.now))
            × IsServed routed self.old.seat.now self.new.seat.now result }
    {
        self.answer(alloc, request)
    }
}
