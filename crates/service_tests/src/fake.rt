//! An engine in memory.

ghost use Rattle.std.specs.Prelude.{◌≡◌, ◌++◌, ◌≤◌, ◌⊎◌, ⊤, drop, false, length, refl, IfOk, List, OnErr, OnOk};
ghost use Rattle.std.proofs.Common.{ap, sym, ◌∙◌};
ghost use Rattle.kap_base.specs.Words.{HasRisen};
ghost use Rattle.kap_service.specs.Stores.{AreBehind};
ghost use Rattle.kap_service.specs.Values.{Stores};
ghost use Rattle.reply_bodies.specs.Asks.{IsFailed};
ghost use Rattle.service_tests.specs.Fakes.{HasMore, HasSame, engine_of, store_of};
ghost use Rattle.topic_core.specs.declared.transition.Transition.{Transition as TransitionValue};

use kap_base::{Duplicate, ItemList, Level, NoMemory, Text};
use kap_http::{Ask, Refusal, Reply};
use kap_service::{Engine, ShareFault};
use reply_bodies::{done_reply, no_memory_reply};
use std::alloc::Global;
use std::marker::Model;
use topic_core::Transition;

/// An engine in memory: each write stores a transition of one topic to CRITICAL.
#[derive(Drop)]
pub struct FakeEngine {
    stored: Vec<Transition>,
    own_from: usize,
    changes: u64,
    faults: u64,
    spent: bool,
    /// Whether the next write fails.
    fails: bool,
}

impl Model for FakeEngine {
    ghost use Rattle.std.specs.Prelude.{drop};
    ghost use Rattle.service_tests.specs.Fakes.{FakeValue};

    ghost Value = { FakeValue };

    ghost view = { λ f. record {
      changes = f.changes;
      faults = f.faults;
      spent = f.spent;
      stored = f.stored.items;
      own = drop f.own_from f.stored.items;
    } };
}

/// The transition of a write.
fn critical(alloc: Global, number: u64) -> Result<Transition, NoMemory> {
    Ok(Transition {
        number,
        topic: Text::from_str(alloc, "main:c:alert2")?,
        id: Text::from_str(alloc, "m")?,
        old_level: Level::Fine,
        new_level: Level::Critical,
        time: 0,
        message: Text::from_str(alloc, "m")?,
    })
}

/// Those from this place on.
fn items_from(items: &[Transition], at: usize) -> &[Transition]
    ensures { result.now ≡ drop at items.now }
{
    match items.get(at..) {
        Some(rest) => rest,
        None => &[],
    }
}

/// A copy of the one at this place, where there is one.
fn one_from(alloc: Global, items: &[Transition], at: u64) -> Result<ItemList<Transition>, NoMemory>
    ensures { IfOk result (AreBehind items.now at) }
{
    let mut some = ItemList::new(alloc);
    let Some((first, _)) = items_from(items, at as usize).split_first() else {
        return Ok(some);
    };
    some.push(first.copy(alloc)?)?;
    Ok(some)
}

impl FakeEngine {
    /// An engine without changes, whose first write fails or not.
    pub fn new(alloc: Global, fails: bool) -> FakeEngine
        ensures { (result.spent ≡ false) × (result.faults ≡ 0) }
    {
        FakeEngine {
            stored: Vec::new(alloc),
            own_from: 0,
            changes: 0,
            faults: 0,
            spent: false,
            fails,
        }
    }

    /// Stores one transition more. An `Err` changes nothing.
    fn add(&mut self, alloc: Global) -> Result<(), NoMemory>
        ensures ok { OnOk result (HasMore self.old self.new) }
        ensures err { OnErr result (self.new ≡ self.old) }
    {
        if self.changes == u64::MAX {
            return Err(NoMemory);
        }
        let next = critical(alloc, self.changes + 1)?;
        let len = self.stored.len();
        self.stored.push(next)?;
        self.own_from = len;
        self.changes += 1;
        Ok(())
    }

    /// Stores a change, or fails. The status of the reply.
    fn write(&mut self, alloc: Global) -> u16
        requires { self.old.spent ≡ false }
        ensures status { (result ≡ 204) ⊎ IsFailed result }
        ensures done { result ≡ 204 → HasMore self.old self.new }
        ensures failed { IsFailed result → HasSame self.old self.new }
        ensures cause { result ≡ 500 → HasRisen self.old.faults self.new.faults }
        ensures later { self.old.faults ≤ self.new.faults }
    {
        if self.fails {
            self.fails = false;
            self.spent = true;
            self.faults = self.faults.saturating_add(1);
            return 500;
        }
        match self.add(alloc) {
            Ok(()) => 204,
            Err(NoMemory) => 503,
        }
    }

    fn write_reply(&mut self, alloc: Global) -> Reply
        requires { self.old.spent ≡ false }
        ensures status { (result.status ≡ 204) ⊎ IsFailed result.status }
        ensures done { result.status ≡ 204 → HasMore self.old self.new }
        ensures failed { IsFailed result.status → HasSame self.old self.new }
        ensures cause { result.status ≡ 500 → HasRisen self.old.faults self.new.faults }
        ensures later { self.old.faults ≤ self.new.faults }
    {
        match self.write(alloc) {
            204 => done_reply(alloc),
            500 => Refusal::Store.reply(alloc),
            _ => no_memory_reply(alloc),
        }
    }
}

impl FakeEngine {
    fn is_spent(&self) -> bool
        ensures { result ≡ self.now.spent }
    {
        self.spent
    }

    fn change_count(&self) -> u64
        ensures { result ≡ self.now.changes }
    {
        self.changes
    }

    fn stored_count(&self) -> u64
        ensures { result ≡ length self.now.stored }
    {
        self.stored.len() as u64
    }

    fn last_ones(&self) -> &[Transition]
        ensures own { result.now ≡ self.now.own }
        ensures last { (before : List TransitionValue) × (self.now.stored ≡ before ++ result.now) }
    {
        items_from(self.stored.as_slice(), self.own_from)
    }

    fn one_behind(&self, alloc: Global, after: u64) -> Result<ItemList<Transition>, NoMemory>
        ensures { IfOk result (AreBehind self.now.stored after) }
    {
        one_from(alloc, self.stored.as_slice(), after)
    }

    fn made_again(&mut self)
        ensures same { HasSame self.old self.new }
        ensures usable { self.new.spent ≡ false }
        ensures faults { self.new.faults ≡ self.old.faults }
    {
        self.spent = false;
    }
}

impl Engine for FakeEngine {
    ghost value = { λ f. engine_of f };

    ghost right = { λ f. ⊤ };

    ghost leaves = { λ f store. store ≡ store_of f };

    ghost due = { λ f ask now reply. reply.status ≡ 204 };

    ghost follows = { λ f ask now reply left. ⊤ };

    ghost some = { λ f r. (store_of f, refl) };

    ghost one = { λ f r unspent store other left again. left ∙ sym again };

    ghost counts = { λ f r unspent store left. ap (λ (s : Stores). s.changes) left };

    fn spent(&self) -> bool {
        self.is_spent()
    }

    fn changes(&self) -> u64 {
        self.change_count()
    }

    fn count(&self) -> u64 {
        self.stored_count()
    }

    fn own(&self) -> &[Transition] {
        self.last_ones()
    }

    fn reply(&mut self, alloc: Global, ask: &Ask, _now: i64) -> Reply {
        match ask {
            Ask::Ping => done_reply(alloc),
            Ask::Write(_) => self.write_reply(alloc),
            _ => no_memory_reply(alloc),
        }
    }

    fn renew(&mut self, _alloc: Global) -> Result<(), ShareFault> {
        self.made_again();
        Ok(())
    }

    fn transitions(
        &mut self,
        alloc: Global,
        after: u64,
    ) -> Result<ItemList<Transition>, ShareFault> {
        Ok(self.one_behind(alloc, after)?)
    }
}
