//! The bytes that came and that no request was taken of.

ghost use Rattle.std.specs.Prelude.{◌≡◌, ◌+◌, ◌<◌, ◌≤◌, ◌++◌, [], ℕ, List, drop, length, IfNone, IfOk, OnErr, OnOk};
ghost use Rattle.http_dialog.specs.Inputs.{IsHeadOf, Knows, Takes};

use kap_base::NoMemory;
use kap_http::{Head, HttpFault, Request, read_head};
use std::alloc::Global;
use std::marker::Model;
use std::mem;

/// How many bytes are held at most: a head and a body of the limits.
pub const HELD_LIMIT: usize = 8_404_992;

/// What is known of the front of the bytes.
#[derive(Drop)]
pub(crate) enum Front {
    /// Nothing: bytes came since it was looked at.
    Unknown,
    /// More bytes are waited for, and no head is whole.
    Waits,
    /// This head stands there.
    Whole(Head),
}

/// The bytes that came and that no request was taken of, which contracts see as those bytes.
#[derive(Drop)]
pub(crate) struct Input {
    bytes: Vec<u8>,
    /// How many bytes at the front were taken.
    taken: usize,
    front: Front,
}

impl Model for Input {
    ghost use Rattle.std.specs.Prelude.{List, ℕ, drop};
    ghost use Rattle.http_dialog.specs.Inputs.{IsInput};

    ghost Value = { List ℕ };

    ghost view = { λ i. drop i.taken i.bytes.items };

    ghost invariant = { λ i. IsInput i.bytes.items i.taken i.front };
}

/// Takes the first bytes away.
fn take_away(bytes: &mut Vec<u8>, count: usize)
    requires { count ≤ length bytes.old.items }
    ensures { bytes.new.items ≡ drop count bytes.old.items }
{
    let rest = bytes.len() - count;
    bytes.rotate_left(count);
    bytes.truncate(rest);
}

/// What is still known where more bytes come.
fn grown(front: Front) -> Front
    ensures { (bytes more : List ℕ) → Knows bytes front → Knows (bytes ++ more) result }
{
    match front {
        Front::Whole(head) => Front::Whole(head),
        Front::Unknown | Front::Waits => Front::Unknown,
    }
}

impl Input {
    /// Of which nothing came yet.
    pub(crate) fn new(alloc: Global) -> Input
        ensures { result ≡ [] }
    {
        Input {
            bytes: Vec::new(alloc),
            taken: 0,
            front: Front::Unknown,
        }
    }

    /// How many bytes are held.
    pub(crate) fn len(&self) -> usize
        ensures len { result ≡ length self.now }
        ensures most { result ≤ HELD_LIMIT }
    {
        self.bytes.len() - self.taken
    }

    /// Adds bytes that came. `NoMemory` changes nothing.
    pub(crate) fn keep(&mut self, piece: &[u8]) -> Result<(), NoMemory>
        requires { length self.old + length piece.now ≤ HELD_LIMIT }
        ensures ok { OnOk result (self.new ≡ self.old ++ piece.now) }
        ensures err { OnErr result (self.new ≡ self.old) }
    {
        take_away(&mut self.bytes, self.taken);
        self.taken = 0;
        self.bytes.extend_from_slice(piece)?;
        self.front = grown(mem::replace(&mut self.front, Front::Unknown));
        Ok(())
    }

    /// The bytes that are held.
    fn rest(&self) -> &[u8]
        ensures { result.now ≡ self.now }
    {
        let (_, rest) = self.bytes.as_slice().split_at(self.taken);
        rest
    }

    /// Takes the next request out, if it is whole. A head that is whole is read once, and a body isn't looked
    /// at before it is.
    #[tactic(auto, using(crate::proofs::InputLaws::waits_short))]
    pub(crate) fn next(&mut self, alloc: Global) -> Result<Option<Request>, HttpFault>
        ensures takes { Takes self.old self.new result }
        ensures short { IfOk result (λ o. IfNone o (length self.old < HELD_LIMIT)) }
        ensures most { length self.old ≤ HELD_LIMIT }
    {
        match mem::replace(&mut self.front, Front::Unknown) {
            Front::Whole(head) => self.whole(alloc, head),
            Front::Unknown => self.first(alloc),
            Front::Waits => {
                self.front = Front::Waits;
                Ok(None)
            }
        }
    }

    /// Looks for a head.
    #[tactic(auto, using(crate::proofs::InputLaws::head_is, crate::proofs::InputLaws::waits, crate::proofs::InputLaws::refused))]
    fn first(&mut self, alloc: Global) -> Result<Option<Request>, HttpFault>
        ensures takes { Takes self.old self.new result }
        ensures short { IfOk result (λ o. IfNone o (length self.old < HELD_LIMIT)) }
    {
        match read_head(alloc, self.rest()) {
            Ok(Some(head)) => self.whole(alloc, head),
            Ok(None) => {
                self.front = Front::Waits;
                Ok(None)
            }
            Err(fault) => Err(fault),
        }
    }

    /// Takes the request of this head out, if its body is whole.
    #[tactic(auto, using(crate::proofs::InputLaws::gives_none, crate::proofs::InputLaws::gives_some))]
    fn whole(&mut self, alloc: Global, head: Head) -> Result<Option<Request>, HttpFault>
        requires { IsHeadOf head self.old }
        ensures takes { Takes self.old self.new result }
        ensures short { IfOk result (λ o. IfNone o (length self.old < HELD_LIMIT)) }
    {
        let total = head.total();
        if self.len() < total {
            self.front = Front::Whole(head);
            return Ok(None);
        }
        let request = head.request(alloc, self.rest())?;
        self.taken += total;
        self.front = Front::Unknown;
        Ok(Some(request))
    }
}
