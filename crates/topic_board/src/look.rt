//! Those who read.

ghost use Rattle.std.specs.Prelude.{◌≡◌, ◌⊎◌, ◌<◌, Err, IfOk, OnErr, OnOk, IfSome};
ghost use mathlib.Core.List.{IsPrefix};
ghost use Rattle.kap_base.specs.Words.{HasRisen};
ghost use Rattle.topic_core.specs.Topics.{topics_after, topic_level};

use crate::history::{Front, Naming};
use crate::shown::Shown;
use kap_base::{Level, NoMemory, Text};
use left_right::ReadHandle;
use std::alloc::Global;
use std::marker::{Model, PhantomData};
use topic_core::Topics;

/// A look was refused: the board has ended, or shows less than the look knows.
#[derive(Clone, Copy, Debug, PartialEq, Eq)]
pub struct Away;

/// Why the topics can't be copied.
#[derive(Clone, Copy, Debug, PartialEq, Eq)]
pub enum LookFault {
    /// The look was refused.
    Away,
    /// Memory ran out.
    NoMemory,
}

/// A reader of the board, for one thread. What it sees never goes back.
#[derive(Drop)]
pub struct Look<J: Naming, O: Drop, T: Shown<J, O>> {
    handle: ReadHandle<T>,
    front: Front<J>,
    aways: u64,
    of: PhantomData<O>,
}

impl<J: Naming, O: Drop, T: Shown<J, O>> Model for Look<J, O, T> {
    ghost use Rattle.topic_board.specs.Values.{Looks};

    ghost Value = { Looks };

    ghost view = { λ l. record { known = l.front; aways = l.aways } };
}

/// The level of a topic with the history that it is of, where that goes on from what is known.
fn level_since<J: Naming, O: Drop, T: Shown<J, O>>(
    shown: &T,
    known: &Front<J>,
    topic: &Text,
) -> Option<(Option<Level>, Front<J>)>
    ensures { IfSome result (λ r. IsPrefix known.now r.1
        × (r.0 ≡ topic_level (topics_after r.1).levels topic.now)) }
{
    let front = shown.front();
    if !known.begins(&front) {
        return None;
    }
    Some((shown.level(topic), front))
}

/// The same of what is shown now, where a reader is let in.
fn level_in<J: Naming, O: Drop, T: Shown<J, O>>(
    handle: &mut ReadHandle<T>,
    known: &Front<J>,
    topic: &Text,
) -> Option<(Option<Level>, Front<J>)>
    ensures { IfSome result (λ r. IsPrefix known.now r.1
        × (r.0 ≡ topic_level (topics_after r.1).levels topic.now)) }
{
    match handle.enter() {
        None => None,
        Some(guard) => level_since::<J, O, T>(&guard, known, topic),
    }
}

/// A copy of the topics with the history that they are of, where that goes on from what is known.
fn topics_since<J: Naming, O: Drop, T: Shown<J, O>>(
    alloc: Global,
    shown: &T,
    known: &Front<J>,
) -> Option<Result<(Topics, Front<J>), NoMemory>>
    ensures { IfSome result (λ a. IfOk a (λ r. IsPrefix known.now r.1 × (r.0 ≡ topics_after r.1))) }
{
    let front = shown.front();
    if !known.begins(&front) {
        return None;
    }
    match shown.topics(alloc) {
        Ok(topics) => Some(Ok((topics, front))),
        Err(NoMemory) => Some(Err(NoMemory)),
    }
}

/// The same of what is shown now, where a reader is let in.
fn topics_in<J: Naming, O: Drop, T: Shown<J, O>>(
    alloc: Global,
    handle: &mut ReadHandle<T>,
    known: &Front<J>,
) -> Option<Result<(Topics, Front<J>), NoMemory>>
    ensures { IfSome result (λ a. IfOk a (λ r. IsPrefix known.now r.1 × (r.0 ≡ topics_after r.1))) }
{
    match handle.enter() {
        None => None,
        Some(guard) => topics_since::<J, O, T>(alloc, &guard, known),
    }
}

/// One refusal more. The count stands still at the end of its type.
fn one_more(aways: u64) -> u64
    ensures { HasRisen aways result }
{
    aways.saturating_add(1)
}

impl<J: Naming, O: Drop, T: Shown<J, O>> Look<J, O, T> {
    pub(crate) fn new(handle: ReadHandle<T>, front: Front<J>) -> Look<J, O, T>
        ensures { (result.known ≡ front) × (result.aways ≡ 0) }
    {
        Look {
            handle,
            front,
            aways: 0,
            of: PhantomData,
        }
    }

    /// How often it was refused. The count stands still at the end of its type.
    pub fn aways(&self) -> u64
        ensures { result ≡ self.now.aways }
    {
        self.aways
    }

    /// What it saw or learnt of, for other looks to learn. By `Front::begins` it begins what the poster
    /// tells, or is begun by that.
    pub fn known(&self) -> Front<J>
        ensures { result ≡ self.now.known }
    {
        self.front.again()
    }

    /// From now on it sees no less than was told.
    pub fn learn(&mut self, told: Front<J>)
        ensures before { IsPrefix self.old.known self.new.known }
        ensures told { IsPrefix told self.new.known }
        ensures no_more { (self.new.known ≡ self.old.known) ⊎ (self.new.known ≡ told) }
        ensures aways { self.new.aways ≡ self.old.aways }
    {
        if self.front.begins(&told) {
            self.front = told;
        }
    }

    /// The greatest level of the ids of a topic, None where the topic has had no transition: after all that
    /// was known before, and maybe more. It takes no memory and waits for nobody. After `Away` nothing has
    /// changed but the count of refusals.
    pub fn level(&mut self, topic: &Text) -> Result<Option<Level>, Away>
        ensures later { IsPrefix self.old.known self.new.known }
        ensures level { IfOk result (λ level.
            level ≡ topic_level (topics_after self.new.known).levels topic.now) }
        ensures away { OnErr result ((self.new.known ≡ self.old.known)
            × HasRisen self.old.aways self.new.aways) }
        ensures ok { OnOk result (self.new.aways ≡ self.old.aways) }
    {
        match level_in::<J, O, T>(&mut self.handle, &self.front, topic) {
            Some((level, front)) => {
                self.front = front;
                Ok(level)
            }
            None => {
                self.aways = one_more(self.aways);
                Err(Away)
            }
        }
    }

    /// A copy of the topics after all that was known before, and maybe more. It waits for nobody. After
    /// `NoMemory` nothing has changed, and after `Away` nothing but the count of refusals.
    pub fn copy(&mut self, alloc: Global) -> Result<Topics, LookFault>
        ensures later { IsPrefix self.old.known self.new.known }
        ensures topics { IfOk result (λ topics. topics ≡ topics_after self.new.known) }
        ensures err { OnErr result (self.new.known ≡ self.old.known) }
        ensures away { result ≡ Err LookFault.Away → HasRisen self.old.aways self.new.aways }
        ensures kept { (self.new.aways ≡ self.old.aways) ⊎ (result ≡ Err LookFault.Away) }
    {
        match topics_in::<J, O, T>(alloc, &mut self.handle, &self.front) {
            Some(Ok((topics, front))) => {
                self.front = front;
                Ok(topics)
            }
            Some(Err(NoMemory)) => Err(LookFault::NoMemory),
            None => {
                self.aways = one_more(self.aways);
                Err(LookFault::Away)
            }
        }
    }
}
