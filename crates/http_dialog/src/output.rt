//! The bytes that are due.

ghost use Rattle.std.specs.Prelude.{◌≡◌, ◌≢◌, ◌<◌, ◌≤◌, ◌++◌, [], drop, false, length, take, true, MatchBool};
ghost use Rattle.kap_http.specs.Replies.{fault_reply, out_of_memory, reply_text};
ghost use Rattle.http_dialog.specs.Outputs.{IsFree, tail_bytes};

use kap_base::{Bytes, NoMemory};
use kap_http::{HttpFault, fault_text, no_memory_text};
use std::alloc::Global;
use std::marker::Model;

/// How many bytes are due before they are written although another request is whole: replies to requests that
/// came together are joined up to there.
pub const JOINED_LIMIT: usize = 65_536;

/// What is due behind the joined replies. A refusal, and the reply that says that memory ran out, take none.
#[derive(Drop)]
pub(crate) enum Tail {
    /// Nothing.
    Nothing,
    /// A reply that found no room among the joined ones.
    Made(Bytes),
    /// The 503 that says that memory ran out, as the last reply or not.
    Lack(bool),
    /// The refusal of bytes that hold no request.
    Fault(HttpFault),
}

impl Tail {
    fn bytes(&self) -> &[u8]
        ensures { result.now ≡ tail_bytes self.now }
    {
        match self {
            Tail::Nothing => b"",
            Tail::Made(bytes) => bytes.as_slice(),
            Tail::Lack(last) => no_memory_text(*last),
            Tail::Fault(fault) => fault_text(*fault),
        }
    }
}

/// The bytes that are due: replies that are joined, and what stands behind them.
#[derive(Drop)]
pub(crate) struct Output {
    joined: Bytes,
    /// How many of the joined ones were written.
    gone: usize,
    tail: Tail,
    /// How many bytes of the tail were written.
    tail_gone: usize,
}

impl Model for Output {
    ghost use Rattle.std.specs.Prelude.{◌++◌, ◌≤◌, drop, length};
    ghost use Rattle.http_dialog.specs.Outputs.{OutputValue, has_tail, tail_bytes};

    ghost Value = { OutputValue };

    ghost view = { λ o. record {
      due = drop o.gone o.joined ++ drop o.tail_gone (tail_bytes o.tail);
      tailed = has_tail o.tail;
    } };

    ghost invariant = { λ o. (o.gone ≤ length o.joined) × (o.tail_gone ≤ length (tail_bytes o.tail)) };
}

impl Output {
    /// Nothing is due.
    pub(crate) fn new(alloc: Global) -> Output
        ensures { result.due ≡ [] }
    {
        Output {
            joined: Bytes::new(alloc),
            gone: 0,
            tail: Tail::Nothing,
            tail_gone: 0,
        }
    }

    /// The bytes that are to be written next: all that are due, or a front of them, which isn't empty where
    /// some are due.
    #[tactic(auto, using(crate::proofs::OutputLaws::front_first, crate::proofs::OutputLaws::front_second, crate::proofs::OutputLaws::within_first, crate::proofs::OutputLaws::within_second, crate::proofs::OutputLaws::some_first, crate::proofs::OutputLaws::some_second))]
    pub(crate) fn front(&self) -> &[u8]
        ensures front { result.now ≡ take (length result.now) self.now.due }
        ensures within { length result.now ≤ length self.now.due }
        ensures some { self.now.due ≢ [] → 0 < length result.now }
    {
        if self.gone < self.joined.len() {
            let (_, rest) = self.joined.as_slice().split_at(self.gone);
            return rest;
        }
        let (_, rest) = self.tail.bytes().split_at(self.tail_gone);
        rest
    }

    /// Whether nothing is due.
    #[tactic(auto, using(crate::proofs::OutputLaws::none_due, crate::proofs::OutputLaws::some_due))]
    pub(crate) fn is_empty(&self) -> bool
        ensures { MatchBool result (self.now.due ≡ []) (self.now.due ≢ []) }
    {
        self.front().is_empty()
    }

    /// Whether what is due is to be written before more is added.
    pub(crate) fn is_full(&self) -> bool
        ensures { MatchBool result (self.now.due ≢ []) (IsFree self.now) }
    {
        if self.is_empty() {
            return false;
        }
        match self.tail {
            Tail::Nothing => JOINED_LIMIT <= self.joined.len() - self.gone,
            _ => true,
        }
    }

    /// So many of the bytes that were due were written.
    #[tactic(auto, using(crate::proofs::OutputLaws::went_first, crate::proofs::OutputLaws::went_second, crate::proofs::OutputLaws::tail_within))]
    pub(crate) fn pass(&mut self, count: usize)
        requires { count ≤ length self.old.due }
        ensures { self.new.due ≡ drop count self.old.due }
    {
        let rest = self.joined.len() - self.gone;
        if count <= rest {
            self.gone += count;
            return;
        }
        let len = self.tail.bytes().len();
        self.gone = self.joined.len();
        self.tail_gone = len - (len - self.tail_gone - (count - rest));
    }

    /// Adds the bytes of a reply. It asks for memory to join them with what is due, and does without.
    #[tactic(auto, using(crate::proofs::OutputLaws::added_first, crate::proofs::OutputLaws::joined_free, crate::proofs::OutputLaws::behind_free))]
    pub(crate) fn add(&mut self, text: Bytes)
        requires { IsFree self.old }
        ensures { self.new.due ≡ self.old.due ++ text }
    {
        if self.is_empty() {
            self.joined = text;
            self.gone = 0;
            self.tail = Tail::Nothing;
            self.tail_gone = 0;
            return;
        }
        match self.joined.append(text.as_slice()) {
            Ok(()) => {}
            Err(NoMemory) => {
                self.tail = Tail::Made(text);
                self.tail_gone = 0;
            }
        }
    }

    /// Adds those of the reply that says that memory ran out.
    #[tactic(auto, using(crate::proofs::OutputLaws::behind_free))]
    pub(crate) fn add_lack(&mut self, last: bool)
        requires { IsFree self.old }
        ensures { self.new.due ≡ self.old.due ++ reply_text (out_of_memory last) }
    {
        self.tail = Tail::Lack(last);
        self.tail_gone = 0;
    }

    /// Adds those of the refusal of bytes that hold no request.
    #[tactic(auto, using(crate::proofs::OutputLaws::behind_free))]
    pub(crate) fn add_fault(&mut self, fault: HttpFault)
        requires { IsFree self.old }
        ensures { self.new.due ≡ self.old.due ++ reply_text (fault_reply fault) }
    {
        self.tail = Tail::Fault(fault);
        self.tail_gone = 0;
    }
}
