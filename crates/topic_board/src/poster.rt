//! The one who posts.

ghost use Rattle.std.specs.Prelude.{◌≡◌, ◌<◌, ◌^◌, [], ◌∷◌, ◌++◌, ◌+◌, None, Some, length, IfOk, IfSome, MatchBool, MatchResult, OnOk, OnErr};
ghost use Rattle.left_right.specs.Handles.{published, pending};
ghost use Rattle.topic_board.specs.Ops.{last_of};
ghost use Rattle.topic_board.specs.Values.{IsNew};

use crate::history::{Book, Front, Naming};
use crate::look::Look;
use crate::shown::Shown;
use kap_base::{Duplicate, NoMemory};
use left_right::WriteHandle;
use std::alloc::{AllocError, Global};
use std::marker::Model;
use std::sync::Wait;
use topic_core::Transition;

/// The one who posts. Where it is let go the board ends: it waits for the readers that are in, and none is
/// let in any more.
#[derive(Drop)]
pub struct Poster<J: Naming, O: Drop, T: Shown<J, O>, R: Wait + Drop> {
    book: Book<J>,
    /// All that was posted.
    front: Front<J>,
    /// What was posted last, where there was no memory to hand it on.
    stuck: Option<O>,
    handle: WriteHandle<T, O, R>,
}

impl<J: Naming, O: Drop, T: Shown<J, O>, R: Wait + Drop> Model for Poster<J, O, T, R> {
    ghost use Rattle.std.specs.Prelude.{◌≡◌, drop, length, MatchOption};
    ghost use mathlib.Core.List.{IsPrefix};
    ghost use Rattle.left_right.specs.Handles.{published, pending};
    ghost use Rattle.topic_board.specs.Values.{Posts};
    ghost use Rattle.topic_board.specs.Ops.{last_of};

    ghost Value = { Posts };

    ghost view = { λ p. record {
      published = T.list (published p.handle);
      pending = drop (length (T.list (published p.handle))) p.front;
    } };

    ghost invariant = { λ p. IsPrefix (T.list (published p.handle)) p.front
        × MatchOption p.stuck
        (last_of T.posted (T.list (published p.handle)) (pending p.handle) ≡ p.front)
        (λ op. T.posted op ≡ p.front) };
}

/// How many transitions can be posted to a board.
pub const POST_LIMIT: u64 = 1 << 60;

/// The transition behind the history, as what is handed on. None where the history is longer.
fn posted<J: Naming, O: Drop, T: Shown<J, O>>(
    shown: &T,
    front: &Front<J>,
    book: &Book<J>,
    transition: Transition,
) -> Option<(Front<J>, O)>
    requires { length front.now < 2 ^ 62 }
    ensures { IfSome result (λ r. (r.0 ≡ front.now ++ transition ∷ [])
        × (T.posted r.1 ≡ front.now ++ transition ∷ [])) }
{
    let mut front = front.again();
    if !front.add(book, &transition) {
        return None;
    }
    let op = shown.posting(transition, &front);
    Some((front, op))
}

fn stick<O: Drop>(stuck: &mut Option<O>, op: O)
    ensures { stuck.new ≡ Some op }
{
    *stuck = Some(op);
}

fn is_free<O>(stuck: &Option<O>) -> bool
    ensures { MatchBool result (stuck.now ≡ None) (Unit {0}) }
{
    stuck.is_none()
}

/// Shows readers what is pending.
fn show<J: Naming, O: Drop, T: Shown<J, O>, R: Wait + Drop>(
    handle: &mut WriteHandle<T, O, R>,
) -> Result<(), AllocError>
    ensures { MatchResult result
        (λ _. (T.list (published handle.new)
        ≡ last_of T.posted (T.list (published handle.old)) (pending handle.old))
        × (pending handle.new ≡ []))
        (λ _. (published handle.new ≡ published handle.old)
        × (pending handle.new ≡ pending handle.old)) }
{
    handle.publish()
}

impl<J: Naming, O: Drop, T: Shown<J, O>, R: Wait + Drop> Poster<J, O, T, R> {
    pub(crate) fn new(
        book: Book<J>,
        front: Front<J>,
        handle: WriteHandle<T, O, R>,
    ) -> Poster<J, O, T, R>
        requires front { front ≡ [] }
        requires shown { T.list (published handle) ≡ [] }
        requires pending { pending handle ≡ [] }
        ensures { (result.published ≡ []) × (result.pending ≡ []) }
    {
        Poster {
            book,
            front,
            stuck: None,
            handle,
        }
    }

    pub(crate) fn look(&self, front: Front<J>) -> Result<Look<J, O, T>, AllocError>
        requires { front ≡ [] }
        ensures { IfOk result (λ look. IsNew look) }
    {
        Ok(Look::new(self.handle.handle()?, front))
    }

    /// Hands over what is stuck.
    fn unstick(&mut self) -> Result<(), NoMemory>
        ensures { self.new ≡ self.old }
    {
        match self.stuck.take() {
            None => Ok(()),
            Some(op) => match self.handle.append(op) {
                Ok(()) => Ok(()),
                Err(op) => {
                    self.stuck = Some(op);
                    Err(NoMemory)
                }
            },
        }
    }

    /// Posts a transition, which is pending then: no reader sees it yet. After `NoMemory`, which comes too
    /// where `POST_LIMIT` transitions were posted, nothing has changed.
    pub fn post(&mut self, alloc: Global, transition: &Transition) -> Result<(), NoMemory>
        ensures published { self.new.published ≡ self.old.published }
        ensures ok { OnOk result (self.new.pending ≡ self.old.pending ++ transition.now ∷ []) }
        ensures err { OnErr result (self.new.pending ≡ self.old.pending) }
    {
        self.unstick()?;
        if self.stuck.is_some() || self.front.len() >= POST_LIMIT {
            return Err(NoMemory);
        }
        let copy = transition.copy(alloc)?;
        match posted::<J, O, T>(self.handle.published(), &self.front, &self.book, copy) {
            None => Err(NoMemory),
            Some((front, op)) => {
                self.front = front;
                if let Err(op) = self.handle.append(op) {
                    stick(&mut self.stuck, op);
                }
                Ok(())
            }
        }
    }

    /// Shows readers all that was posted. It waits for those that still read what was shown before. After
    /// `NoMemory` nothing has changed.
    pub fn publish(&mut self) -> Result<(), NoMemory>
        ensures ok { OnOk result ((self.new.published ≡ self.old.published ++ self.old.pending)
            × (self.new.pending ≡ [])) }
        ensures err { OnErr result (self.new ≡ self.old) }
    {
        self.unstick()?;
        if !is_free(&self.stuck) {
            return Err(NoMemory);
        }
        show::<J, O, T, R>(&mut self.handle)?;
        Ok(())
    }

    /// How many transitions were posted.
    pub fn count(&self) -> u64
        ensures { result ≡ length self.now.published + length self.now.pending }
    {
        self.front.len()
    }

    /// What was published so far, for looks to learn.
    pub fn tell(&self) -> Front<J>
        ensures { result ≡ self.now.published }
    {
        self.handle.published().front()
    }

    /// Ends the board. It waits for the readers that are in.
    pub fn end(self) {
        drop(self);
    }
}
