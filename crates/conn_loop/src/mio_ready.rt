//! What tells which sockets are ready.

ghost use Rattle.std.specs.Prelude.{◌≡◌};

use crate::mio_door::MioDoor;
use crate::mio_link::{MioLink, is_over};
use crate::ready::Ready;
use kap_io::Failed;
use mio::{Events, Interest, Poll, Token};
use std::alloc::Global;
use std::io;
use std::net::Net;
use std::time::{Clock, Duration, Instant};

/// Tells which links over sockets may go on: those that the system reports, and each second all of them, so
/// that a link whose time is up is polled and fails. It also keeps links that have ended while they linger. It
/// counts each `Err` of the system.
#[derive(Drop)]
pub struct MioReady<C: Clock + Copy> {
    poll: Poll,
    events: Events,
    clock: C,
    /// The numbers of the links that are watched.
    watched: Vec<u32>,
    /// The numbers that the last wait found.
    numbers: Vec<u32>,
    /// When all were told last.
    swept: Instant,
    /// The links that linger.
    lingering: Vec<MioLink<C>>,
    faults: u64,
}

/// The name of the door among the sockets: no number of a link.
const DOOR: Token = Token(usize::MAX);

/// How many sockets are reported at once.
const EVENTS: usize = 1_024;

/// How many links linger at once. More are closed at once.
const LINGERING: usize = 64;

/// How long a wait lasts at most, and how often all numbers are told.
const SWEEP_SECONDS: u64 = 1;

impl<C: Clock + Copy> MioReady<C> {
    /// Tells of at most so many links, and ends a wait where one comes at this door. It answers why the system
    /// or memory doesn't allow it.
    pub fn new(
        alloc: Global,
        net: &impl Net,
        door: &mut MioDoor<C>,
        clock: C,
        limit: u32,
    ) -> io::Result<MioReady<C>> {
        let poll = Poll::new(net)?;
        poll.registry()
            .register(&mut door.listener, DOOR, Interest::READABLE)?;
        let limit = limit as usize;
        Ok(MioReady {
            poll,
            events: Events::with_capacity(alloc, EVENTS)?,
            clock,
            watched: Vec::with_capacity(alloc, limit)?,
            numbers: Vec::with_capacity(alloc, limit.max(EVENTS))?,
            swept: Instant::now(&clock)?,
            lingering: Vec::with_capacity(alloc, LINGERING)?,
            faults: 0,
        })
    }

    /// Waits for reports of the system; whether it worked.
    fn wait_for_reports(&mut self, at_once: bool) -> bool
        ensures { self.new.faults ≡ self.old.faults }
    {
        let longest = if at_once { 0 } else { SWEEP_SECONDS };
        let time = Some(Duration::from_secs(longest));
        self.poll.poll(&mut self.events, time).is_ok()
    }

    /// Takes the numbers of the links that were reported; whether there was room for them.
    fn take_reported(&mut self) -> bool
        ensures { self.new.faults ≡ self.old.faults }
    {
        let mut room = true;
        for event in self.events.iter() {
            if let Ok(number) = u32::try_from(event.token().0) {
                room = room && self.numbers.push(number).is_ok();
            }
        }
        room
    }

    /// Takes the numbers to tell: all, each second, and else those that were reported; whether there was room
    /// for them.
    fn take_numbers(&mut self) -> bool
        ensures { self.new.faults ≡ self.old.faults }
    {
        self.numbers.clear();
        if !is_over(&self.clock, self.swept, Duration::from_secs(SWEEP_SECONDS)) {
            return self.take_reported();
        }
        if let Ok(now) = Instant::now(&self.clock) {
            self.swept = now;
        }
        self.numbers.extend_from_slice(&self.watched).is_ok()
    }

    /// Forgets the number of a link.
    fn forget(&mut self, number: u32)
        ensures { self.new.faults ≡ self.old.faults }
    {
        if let Ok(place) = self.watched.binary_search(&number) {
            self.watched.remove(place);
        }
    }

    /// Keeps a link that has ended while it lingers. Where many do, it is closed.
    fn keep(&mut self, link: MioLink<C>)
        ensures { self.new.faults ≡ self.old.faults }
    {
        if self.lingering.len() < LINGERING {
            let _ = self.lingering.push(link);
        }
    }
}

impl<C: Clock + Copy> Ready<MioLink<C>> for MioReady<C> {
    ghost faults = { λ r. r.faults };

    fn watch(&mut self, link: &mut MioLink<C>, number: u32) -> Result<(), Failed> {
        let token = Token(number as usize);
        let both = Interest::READABLE | Interest::WRITABLE;
        let registered = self.poll.registry().register(&mut link.stream, token, both);
        if registered.is_ok() && self.watched.push(number).is_ok() {
            return Ok(());
        }
        self.faults = self.faults.saturating_add(1);
        Err(Failed)
    }

    fn release(&mut self, number: u32, link: MioLink<C>) {
        let mut link = link;
        self.forget(number);
        if link.leaves() {
            self.keep(link);
        }
    }

    fn wait(&mut self, at_once: bool) -> Result<(), Failed> {
        self.lingering.retain_mut(|link| link.lingers());
        if self.wait_for_reports(at_once) && self.take_numbers() {
            return Ok(());
        }
        self.faults = self.faults.saturating_add(1);
        Err(Failed)
    }

    fn numbers(&self) -> &[u32] {
        &self.numbers
    }
}
