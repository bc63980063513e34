//! The loop of links.

ghost use Rattle.std.specs.Prelude.{◌≡◌, ◌+◌, ◌<◌, ◌≤◌, ◌↔◌, [], ◌∷◌, ◌++◌, IfOk, IfErr, IsTrue, OnErr, length};
ghost use Rattle.std.specs.List.{list_any};
ghost use Rattle.conn_loop.specs.Links.{telling};
ghost use Rattle.conn_loop.specs.Loops.{Adds, IsFull};
ghost use Rattle.conn_loop.specs.Turns.{AddsAmong, Turned};

use crate::finished::{AddFault, Finished};
use crate::numbers::sorted;
use crate::passing::pass;
use crate::slot::Slot;
use http_dialog::Dialog;
use kap_base::NoMemory;
use kap_http::Serve;
use kap_io::TryLink;
use std::alloc::Global;
use std::collections::VecDeque;
use std::marker::Model;

/// How many links can be open in a loop at most.
pub const LINKS: u32 = 1_024;

/// Many links on one thread. Each has a number, under which its requests are served.
#[derive(Drop)]
pub struct Loop<L> {
    slots: VecDeque<Slot<L>>,
    added: u32,
    limit: u32,
}

impl<L> Model for Loop<L> {
    ghost use Rattle.conn_loop.specs.Loops.{LoopState};

    ghost Value = { LoopState L };

    ghost use Rattle.conn_loop.specs.Loops.{IsLoop};

    ghost view = { λ l. record { links = l.slots.items; added = l.added; limit = l.limit } };

    ghost invariant = { λ l. IsLoop l.slots.items l.added l.limit };
}

impl<L: TryLink + Drop> Loop<L> {
    /// A loop without links, of which so many can be open at once. It takes no memory.
    pub fn new(alloc: Global, limit: u32) -> Loop<L>
        requires some { 0 < limit }
        requires most { limit ≤ LINKS }
        ensures { result ≡ record { links = []; added = 0; limit = limit } }
    {
        Loop {
            slots: VecDeque::new(alloc),
            added: 0,
            limit,
        }
    }

    /// How many links are open.
    pub fn links(&self) -> u32
        ensures { result ≡ length self.now.links }
    {
        self.slots.len() as u32
    }

    /// How many links were added: the number of the next one.
    pub fn added(&self) -> u32
        ensures { result ≡ self.now.added }
    {
        self.added
    }

    /// Whether a link waits for its next turn alone, since as many requests were served as a turn serves.
    pub fn woken(&self) -> bool
        ensures { result ≡ list_any (λ s. s.woken) self.now.links }
    {
        self.slots.iter().any(|slot| slot.woken)
    }

    /// Whether no link can be added: as many are open as can be, or as many were added as there are numbers.
    pub fn is_full(&self) -> bool
        ensures { IsTrue result ↔ IsFull self.now }
    {
        self.links() >= self.limit || self.added == u32::MAX
    }

    /// Adds a link, whose number is how many were added before. Where it isn't added, it is given back, and
    /// nothing has changed.
    pub fn add(&mut self, alloc: Global, link: L) -> Result<u32, AddFault<L>>
        ensures { Adds link self.old self.new result }
    {
        if self.is_full() {
            return Err(AddFault::Full(link));
        }
        let number = self.added;
        let slot = Slot {
            number,
            link,
            dialog: Dialog::new(alloc),
            woken: false,
        };
        match self.slots.push_back(slot) {
            Ok(()) => {
                self.added += 1;
                Ok(number)
            }
            Err(failed) => Err(AddFault::NoMemory(failed.value.link)),
        }
    }

    /// Polls each open link whose number is one of these, or that was woken, once and in order of their
    /// numbers, and answers those that ended, in that order. Numbers of no open link are passed over. A poll
    /// serves 64 requests at most, under the link's number; where it served so many, it wakes the link.
    ///
    /// A turn says of each link what came of it, wherever it came from, so that turns compose, over any number
    /// of them and whichever numbers come. After `NoMemory` no link was polled, and nothing has changed.
    pub fn turn<H: Serve>(
        &mut self,
        alloc: Global,
        ready: &[u32],
        serve: &mut H,
    ) -> Result<Vec<Finished<L>>, NoMemory>
        ensures turned { IfOk result (λ finished. Turned (telling L.left L.written L.read_faults
            L.write_faults L.waits) ready.now (H.served serve.old) (H.served serve.new)
            self.old.links self.new.links finished.items) }
        ensures only { AddsAmong self.old.links (H.served serve.old) (H.served serve.new) }
        ensures added { self.new.added ≡ self.old.added }
        ensures limit { self.new.limit ≡ self.old.limit }
        ensures err { OnErr result ((self.new ≡ self.old) × (serve.new ≡ serve.old)) }
    {
        let numbers = sorted(alloc, ready)?;
        let mut finished = Vec::with_capacity(alloc, self.slots.len())?;
        pass(alloc, &mut self.slots, &numbers, serve, &mut finished);
        Ok(finished)
    }
}
