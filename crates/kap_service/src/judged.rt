//! What is answered under the lock.

ghost use Rattle.std.specs.Prelude.{◌≡◌, ◌≢◌, ℕ, ◌+◌, ◌<◌, ◌≤◌, if◌then◌else◌, false, IfErr, IfOk, IsTrue, OnOk};
ghost use Rattle.kap_base.specs.Points.{is_time};
ghost use Rattle.reply_bodies.specs.Asks.{IsFailed, change_of};
ghost use Rattle.kap_service.specs.Asks.{status_of};
ghost use Rattle.kap_service.specs.Causes.{AreLater, HasFailed};
ghost use Rattle.kap_service.specs.Stores.{IsAnswered, IsMadeAgain, Reached};
ghost use Rattle.kap_service.specs.Values.{Stores};
ghost use Rattle.kap_service.specs.declared.fault.ShareFault.TheVariants.{NoMemory as no_memory};

use crate::decided::{Decided, decide};
use crate::engine::Engine;
use crate::fault::ShareFault;
use kap_http::{Ask, Refusal, Reply};
use std::alloc::Global;
use std::sync::ledger::{Book, Ledger, Share};

/// The reply where an engine can't be made again.
pub(crate) fn failed_reply(alloc: Global, fault: ShareFault) -> Reply
    ensures failed { IsFailed result.status }
    ensures store { result.status ≡ 500 → fault ≢ no_memory }
    ensures memory { fault ≡ no_memory → result.status ≡ 503 }
{
    match fault {
        ShareFault::NoMemory => Refusal::NoMemory.reply(alloc),
        _ => Refusal::Store.reply(alloc),
    }
}

/// Makes an engine again.
fn renewed<E: Engine>(alloc: Global, engine: &mut E) -> Result<(), Reply>
    ensures usable { OnOk result ((E.value engine.new).spent ≡ false) }
    ensures refusal { IfErr result (λ reply. IsFailed reply.status) }
    ensures later { AreLater (E.value engine.old).faults (E.value engine.new).faults }
    ensures cause { E.right engine.old → IfErr result (λ reply. reply.status ≡ 500
        → HasFailed (E.value engine.old).faults (E.value engine.new).faults) }
    ensures right { E.right engine.old → E.right engine.new }
    ensures stores { E.right engine.old → (store : Stores) → E.leaves engine.new store
        → Reached (E.leaves engine.old) IsMadeAgain store }
{
    match engine.renew(alloc) {
        Ok(()) => Ok(()),
        Err(fault) => Err(failed_reply(alloc, fault)),
    }
}

/// Makes an engine again where it is spent.
fn ready<E: Engine>(alloc: Global, engine: &mut E) -> Result<(), Reply>
    ensures usable { OnOk result ((E.value engine.new).spent ≡ false) }
    ensures still { (E.value engine.old).spent ≡ false → engine.new ≡ engine.old }
    ensures refusal { IfErr result (λ reply. IsFailed reply.status) }
    ensures later { AreLater (E.value engine.old).faults (E.value engine.new).faults }
    ensures cause { E.right engine.old → IfErr result (λ reply. reply.status ≡ 500
        → HasFailed (E.value engine.old).faults (E.value engine.new).faults) }
    ensures right { E.right engine.old → E.right engine.new }
    ensures stores { E.right engine.old → (store : Stores) → E.leaves engine.new store
        → Reached (E.leaves engine.old) IsMadeAgain store }
{
    if engine.spent() {
        renewed(alloc, engine)
    } else {
        Ok(())
    }
}

/// Answers an ask on the engine, which is made again before where it is spent.
pub(crate) fn judged<'a, E: Engine>(
    alloc: Global,
    engine: &mut E,
    ask: &'a Ask,
    now: i64,
) -> Result<Decided<'a, E>, Reply>
    requires time { IsTrue (is_time now) }
    ensures own { IfOk result (λ d. (d.ask ≡ ask.now) × (d.moment ≡ now)) }
    ensures behind { E.right engine.old → (least : ℕ)
        → ((store : Stores) → E.leaves engine.old store → least ≤ store.changes)
        → IfOk result (λ d. least ≤ d.changes) }
    ensures exact { E.right engine.old → IfOk result (λ d. (IsFailed d.reply.status → ⊥)
        → (E.value engine.new).changes ≡ d.changes + change_of ask.now d.reply.status) }
    ensures refusal { IfErr result (λ reply. IsFailed reply.status) }
    ensures usable { (IsFailed (status_of result) → ⊥) → (E.value engine.new).spent ≡ false }
    ensures later { AreLater (E.value engine.old).faults (E.value engine.new).faults }
    ensures cause { E.right engine.old → status_of result ≡ 500
        → HasFailed (E.value engine.old).faults (E.value engine.new).faults }
    ensures right { E.right engine.old → E.right engine.new }
    ensures stores { E.right engine.old → (store : Stores) → E.leaves engine.new store
        → Reached (E.leaves engine.old)
        (IsAnswered (E.value engine.old).spent ask.now (status_of result)
        (E.value engine.new).own) store }
{
    ready(alloc, engine)?;
    Ok(decide(alloc, engine, ask, now))
}

/// The status of an answer.
pub(crate) fn status_in<E: Engine>(judged: &Result<Decided<'_, E>, Reply>) -> u16
    ensures { result ≡ status_of judged.now }
{
    match judged {
        Ok(decided) => decided.status(),
        Err(reply) => reply.status,
    }
}

/// One more in a ledger, where it is so.
pub(crate) fn enter<L: Ledger>(book: &mut Book<L>, share: &mut Share<L>, count: &mut u64, so: bool)
    requires { (0 < share.old.parts) × (count.old < 18446744073709551615) }
    ensures total { book.new.total ≡ book.old.total + (if so then 1 else 0) }
    ensures amount { share.new.amount ≡ share.old.amount + (if so then 1 else 0) }
    ensures parts { share.new.parts ≡ share.old.parts }
    ensures count { count.new ≡ count.old + (if so then 1 else 0) }
{
    if so {
        book.add(share, 1);
        *count += 1;
    }
}
