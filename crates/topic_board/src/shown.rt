//! What readers take, the topics with the history that made them, and what is handed to them.

ghost use Rattle.std.specs.Prelude.{◌≡◌, [], refl, IfOk, MatchResult};
ghost use Rattle.topic_core.specs.Topics.{topics_after, topic_level};
ghost use Rattle.topic_board.specs.Transitions.{EndsWith};

use crate::history::{Front, Naming};
use kap_base::{Duplicate, Level, NoMemory, Text};
use left_right::Absorb;
use std::alloc::{AllocError, Global};
use std::marker::Model;
use topic_core::{Topics, Transition};

/// A transition, and the history up to it, which contracts see it as.
#[derive(Drop)]
pub struct Posted<J: Naming> {
    transition: Transition,
    front: Front<J>,
}

impl<J: Naming> Model for Posted<J> {
    ghost use Rattle.std.specs.Prelude.{List};
    ghost use Rattle.topic_core.specs.declared.transition.Transition.{Transition};
    ghost use Rattle.topic_board.specs.Transitions.{EndsWith};

    ghost Value = { List Transition };

    ghost view = { λ p. p.front };

    ghost invariant = { λ p. EndsWith p.front p.transition };
}

impl<J: Naming> Posted<J> {
    fn new(transition: Transition, front: Front<J>) -> Posted<J>
        requires { EndsWith front transition }
        ensures { result ≡ front }
    {
        Posted { transition, front }
    }
}

/// The topics after a list of transitions, which contracts see it as.
#[derive(Drop)]
pub struct Published<J: Naming> {
    alloc: Global,
    topics: Topics,
    front: Front<J>,
}

impl<J: Naming> Model for Published<J> {
    ghost use Rattle.std.specs.Prelude.{◌≡◌, List};
    ghost use Rattle.topic_core.specs.declared.transition.Transition.{Transition};
    ghost use Rattle.topic_core.specs.Topics.{topics_after};

    ghost Value = { List Transition };

    ghost view = { λ p. p.front };

    ghost invariant = { λ p. p.topics ≡ topics_after p.front };
}

impl<J: Naming> Published<J> {
    pub(crate) fn new(alloc: Global, front: Front<J>) -> Published<J>
        requires { front ≡ [] }
        ensures { result ≡ [] }
    {
        Published {
            alloc,
            topics: Topics::new(alloc),
            front,
        }
    }

    fn front_of(&self) -> Front<J>
        ensures { result ≡ self.now }
    {
        self.front.again()
    }

    fn level_of(&self, topic: &Text) -> Option<Level>
        ensures { result ≡ topic_level (topics_after self.now).levels topic.now }
    {
        self.topics.level(topic)
    }

    fn topics_of(&self, alloc: Global) -> Result<Topics, NoMemory>
        ensures { IfOk result (λ topics. topics ≡ topics_after self.now) }
    {
        self.topics.copy(alloc)
    }

    /// Takes the next transition. An `Err` changes nothing.
    fn take_in(&mut self, posted: &Posted<J>) -> Result<(), AllocError>
        ensures { MatchResult result (λ _. self.new ≡ posted.now) (λ _. self.new ≡ self.old) }
    {
        let count = posted.front.len();
        if count == 0 || count - 1 != self.front.len() || !self.front.begins(&posted.front) {
            return Err(AllocError);
        }
        match self.topics.put(self.alloc, &posted.transition) {
            Ok(()) => {
                self.front = posted.front.again();
                Ok(())
            }
            Err(NoMemory) => Err(AllocError),
        }
    }
}

/// What a board shows: the topics after a list of transitions. It stands for `Published`, so that a board may
/// stand under a lock.
pub trait Shown<J: Naming, O: Drop>: Absorb<O, State = [Transition; 0]> + Drop {
    ghost use Rattle.std.specs.Prelude.{◌≡◌, List, IfOk};
    ghost use Rattle.topic_core.specs.declared.transition.Transition.{Transition};
    ghost use Rattle.topic_core.specs.Topics.{topics_after, topic_level};
    ghost use Rattle.topic_board.specs.Transitions.{EndsWith};

    /// The transitions that made it.
    ghost list: { Self → List Transition };

    /// The transitions that readers see once this was handed to them.
    ghost posted: { O → List Transition };

    /// What hands on a transition with the history up to it.
    fn posting(&self, transition: Transition, front: &Front<J>) -> O
        requires { EndsWith front.now transition }
        ensures { posted result ≡ front.now };

    /// The history that made it.
    fn front(&self) -> Front<J>
        ensures { result ≡ list self.now };

    /// The greatest level of the ids of a topic, None where the topic has had no transition.
    fn level(&self, topic: &Text) -> Option<Level>
        ensures { result ≡ topic_level (topics_after (list self.now)).levels topic.now };

    /// A copy of the topics.
    fn topics(&self, alloc: Global) -> Result<Topics, NoMemory>
        ensures { IfOk result (λ topics. topics ≡ topics_after (list self.now)) };

    ghost state_is: { (x : Self) → Self.Absorb.state x ≡ list x };

    ghost applied_is: { (xs : List Transition) (op : O) → Self.Absorb.applied xs op ≡ posted op };
}

impl<J: Naming> Absorb<Posted<J>> for Published<J> {
    // A clause reads an array as a list, of any length.
    type State = [Transition; 0];

    ghost state = { λ p. p };

    ghost applied = { λ xs op. op };

    fn absorb_first(
        &mut self,
        operation: &Posted<J>,
        _other: &Published<J>,
    ) -> Result<(), AllocError> {
        self.take_in(operation)
    }
}

impl<J: Naming> Shown<J, Posted<J>> for Published<J> {
    ghost list = { λ p. p };

    ghost posted = { λ op. op };

    ghost state_is = { λ x. refl };

    ghost applied_is = { λ xs op. refl };

    fn posting(&self, transition: Transition, front: &Front<J>) -> Posted<J>
        requires { EndsWith front.now transition }
        ensures { result ≡ front.now }
    {
        Posted::new(transition, front.again())
    }

    fn front(&self) -> Front<J> {
        self.front_of()
    }

    fn level(&self, topic: &Text) -> Option<Level> {
        self.level_of(topic)
    }

    fn topics(&self, alloc: Global) -> Result<Topics, NoMemory> {
        self.topics_of(alloc)
    }
}
