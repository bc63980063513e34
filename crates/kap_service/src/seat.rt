//! A seat: what one thread keeps of its answers, and its look.

ghost use Rattle.std.specs.Prelude.{◌≡◌, ◌⊎◌, true, IfNone, IfOk, IfSome, IsTrue, OnErr};
ghost use mathlib.Core.List.{IsPrefix};
ghost use Rattle.kap_base.specs.Words.{HasRisen};
ghost use Rattle.kap_service.specs.Asks.{IsTopicReply, is_topic};
ghost use Rattle.topic_core.specs.Topics.{topics_after};

use kap_base::NoMemory;
use kap_http::{Ask, Reply};
use reply_bodies::{no_memory_reply, topics_reply};
use std::alloc::Global;
use std::marker::Model;
use std::sync::ledger::{Ledger, Share};
use topic_board::{Front, Look, LookFault, Naming, Shown};
use topic_core::Topics;

/// What one thread keeps of its answers, and its look at the board.
#[derive(Drop)]
pub struct Seat<J: Naming, O: Drop, T: Shown<J, O>, L1: Ledger, L2: Ledger> {
    pub(crate) look: Look<J, O, T>,
    pub(crate) first: Share<L1>,
    pub(crate) second: Share<L2>,
    pub(crate) answers: u64,
    pub(crate) status: u16,
    pub(crate) told: Front<J>,
    pub(crate) shown: bool,
}

impl<J: Naming, O: Drop, T: Shown<J, O>, L1: Ledger, L2: Ledger> Model for Seat<J, O, T, L1, L2> {
    ghost use Rattle.std.specs.Prelude.{◌≡◌};
    ghost use Rattle.kap_service.specs.Values.{Seats};

    ghost Value = { Seats };

    ghost view = { λ s. record {
      changes = s.first.amount;
      faults = s.second.amount;
      answers = s.answers;
      status = s.status;
      told = s.told;
      shown = s.shown;
      known = s.look.known;
      aways = s.look.aways;
    } };

    ghost invariant = { λ s. (s.first.parts ≡ 1) × (s.second.parts ≡ 1) };
}

impl<J: Naming, O: Drop, T: Shown<J, O>, L1: Ledger, L2: Ledger> Seat<J, O, T, L1, L2> {
    pub(crate) fn new(
        look: Look<J, O, T>,
        first: Share<L1>,
        second: Share<L2>,
        told: Front<J>,
    ) -> Seat<J, O, T, L1, L2>
        requires { (first.parts ≡ 1) × (second.parts ≡ 1) }
        ensures shares { (result.changes ≡ first.amount) × (result.faults ≡ second.amount) }
        ensures none { (result.answers ≡ 0) × (result.status ≡ 0) }
        ensures shown { result.shown ≡ true }
        ensures told { result.told ≡ told }
        ensures look { (result.known ≡ look.known) × (result.aways ≡ look.aways) }
    {
        Seat {
            look,
            first,
            second,
            answers: 0,
            status: 0,
            told,
            shown: true,
        }
    }

    pub(crate) fn shares(self) -> (Share<L1>, Share<L2>)
        ensures amounts { (result.0.amount ≡ self.changes) × (result.1.amount ≡ self.faults) }
        ensures parts { (result.0.parts ≡ 1) × (result.1.parts ≡ 1) }
    {
        let Self {
            look: _look,
            first,
            second,
            answers: _,
            status: _,
            told: _told,
            shown: _,
        } = self;
        (first, second)
    }

    /// How many answers it got under the lock. The count stands still at the end of its type.
    pub fn answers(&self) -> u64
        ensures { result ≡ self.now.answers }
    {
        self.answers
    }

    /// The status of the last answer that it got under the lock; 0 before the first one.
    pub fn status(&self) -> u16
        ensures { result ≡ self.now.status }
    {
        self.status
    }

    /// What was published when it was last answered under the lock, for other seats to learn; before the
    /// first answer, when it was made. It takes no memory.
    pub fn told(&self) -> Front<J>
        ensures { result ≡ self.now.told }
    {
        self.told.again()
    }

    /// Whether all that was stored was published when it was last answered under the lock; so it was when it
    /// was made.
    pub fn shown(&self) -> bool
        ensures { result ≡ self.now.shown }
    {
        self.shown
    }

    /// From now on its look sees no less than was told. It takes no memory.
    pub fn learn(&mut self, told: Front<J>)
        ensures before { IsPrefix self.old.known self.new.known }
        ensures told { IsPrefix told self.new.known }
        ensures no_more { (self.new.known ≡ self.old.known) ⊎ (self.new.known ≡ told) }
        ensures shares { (self.new.changes ≡ self.old.changes)
            × (self.new.faults ≡ self.old.faults) }
        ensures answers { (self.new.answers ≡ self.old.answers)
            × (self.new.status ≡ self.old.status) × (self.new.told ≡ self.old.told)
            × (self.new.shown ≡ self.old.shown) }
        ensures aways { self.new.aways ≡ self.old.aways }
    {
        self.look.learn(told);
    }

    /// How often its look was refused. The count stands still at the end of its type.
    pub fn aways(&self) -> u64
        ensures { result ≡ self.now.aways }
    {
        self.look.aways()
    }

    /// A copy of the topics, without the lock: after all that was published when this seat was last answered,
    /// all that it learnt and all that it saw before. None only where its look was refused, which then knows
    /// nothing more than what was published.
    pub(crate) fn topics(&mut self, alloc: Global) -> Option<Result<Topics, NoMemory>>
        ensures later { IsPrefix self.old.known self.new.known }
        ensures own { IsPrefix self.old.told self.new.known }
        ensures topics { IfSome result (λ r.
            IfOk r (λ topics. topics ≡ topics_after self.new.known)) }
        ensures some { IfSome result (λ r. self.new.aways ≡ self.old.aways) }
        ensures none { IfNone result (HasRisen self.old.aways self.new.aways) }
        ensures no_more { IfNone result ((self.new.known ≡ self.old.known)
            ⊎ (self.new.known ≡ self.old.told)) }
        ensures shares { (self.new.changes ≡ self.old.changes)
            × (self.new.faults ≡ self.old.faults) }
        ensures answers { (self.new.answers ≡ self.old.answers)
            × (self.new.status ≡ self.old.status) × (self.new.told ≡ self.old.told)
            × (self.new.shown ≡ self.old.shown) }
    {
        self.look.learn(self.told.again());
        match self.look.copy(alloc) {
            Ok(topics) => Some(Ok(topics)),
            Err(LookFault::NoMemory) => Some(Err(NoMemory)),
            Err(LookFault::Away) => None,
        }
    }
}

/// The reply to an ask about topics, where these are the topics.
fn topic_reply(alloc: Global, topics: &Topics, ask: &Ask) -> Reply
    requires { IsTrue (is_topic ask.now) }
    ensures { IsTopicReply ask.now topics.now result }
{
    match ask {
        Ask::Topics => topics_reply(alloc, topics),
        Ask::Topic(topic) => reply_bodies::topic_reply(alloc, topics, &topic.name),
        _ => unreachable!(),
    }
}

/// The same, or that there was no memory for a copy of the topics.
fn reply_of(alloc: Global, topics: Result<Topics, NoMemory>, ask: &Ask) -> Reply
    requires { IsTrue (is_topic ask.now) }
    ensures topics { IfOk topics (λ value. IsTopicReply ask.now value result) }
    ensures short { OnErr topics (result.status ≡ 503) }
{
    match topics {
        Ok(topics) => topic_reply(alloc, &topics, ask),
        Err(NoMemory) => no_memory_reply(alloc),
    }
}

impl<J: Naming, O: Drop, T: Shown<J, O>, L1: Ledger, L2: Ledger> Seat<J, O, T, L1, L2> {
    /// The reply to an ask about topics, without the lock: of the topics after all that was published when
    /// this seat was last answered under the lock, all that it learnt and all that it saw before, and maybe
    /// more. It waits for nobody. 503 says that memory ran out. None only where its look was refused, which is
    /// counted then and not else.
    pub fn answer(&mut self, alloc: Global, ask: &Ask) -> Option<Reply>
        requires topic { IsTrue (is_topic ask.now) }
        ensures later { IsPrefix self.old.known self.new.known }
        ensures own { IsPrefix self.old.told self.new.known }
        ensures reply { IfSome result (λ reply.
            IsTopicReply ask.now (topics_after self.new.known) reply) }
        ensures some { IfSome result (λ r. self.new.aways ≡ self.old.aways) }
        ensures none { IfNone result (HasRisen self.old.aways self.new.aways) }
        ensures no_more { IfNone result ((self.new.known ≡ self.old.known)
            ⊎ (self.new.known ≡ self.old.told)) }
        ensures shares { (self.new.changes ≡ self.old.changes)
            × (self.new.faults ≡ self.old.faults) }
        ensures answers { (self.new.answers ≡ self.old.answers)
            × (self.new.status ≡ self.old.status) × (self.new.told ≡ self.old.told)
            × (self.new.shown ≡ self.old.shown) }
    {
        match self.topics(alloc) {
            Some(topics) => Some(reply_of(alloc, topics, ask)),
            None => None,
        }
    }
}
