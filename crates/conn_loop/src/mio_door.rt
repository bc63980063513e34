//! Doors at sockets that listen and don't wait.

ghost use Rattle.std.specs.Prelude.{None};

use crate::mio_link::MioLink;
use crate::try_door::TryDoor;
use kap_io::{Patience, Stop, is_shortage};
use mio::net::{TcpListener, TcpStream};
use std::io::{self, Error, ErrorKind};
use std::net;
use std::time::{Clock, Instant};

/// A door at a socket that listens and doesn't wait. It tells no number, never answers `None`, and counts
/// each `Err` but that of a client which is gone again. Where the process or the system has no more sockets
/// to give, it would wait.
#[derive(Drop)]
pub struct MioDoor<C: Clock + Copy> {
    pub(crate) listener: TcpListener,
    clock: C,
    patience: Patience,
    faults: u64,
    waits: u64,
}

/// How many clients that are gone again are passed over in a call.
const GONE_LIMIT: u32 = 1_000;

/// Whether a later call may give a link.
fn may_wait(error: &Error) -> bool {
    if error.kind() == ErrorKind::WouldBlock {
        return true;
    }
    is_shortage(error)
}

/// The link over a socket that came.
fn link_over<C: Clock + Copy>(
    stream: TcpStream,
    clock: C,
    patience: Patience,
) -> Option<MioLink<C>> {
    if stream.set_nodelay(true).is_err() {
        return None;
    }
    let now = Instant::now(&clock).ok()?;
    Some(MioLink::new(stream, clock, patience, now))
}

impl<C: Clock + Copy> MioDoor<C> {
    /// A door at this listener, whose links have so long. It answers why the listener can't be made one that
    /// doesn't wait.
    pub fn new(listener: net::TcpListener, clock: C, patience: Patience) -> io::Result<MioDoor<C>> {
        listener.set_nonblocking(true)?;
        Ok(MioDoor {
            listener: TcpListener::from_std(listener),
            clock,
            patience,
            faults: 0,
            waits: 0,
        })
    }

    /// The next link.
    fn next_link(&self) -> Result<MioLink<C>, Stop> {
        for _ in 0..GONE_LIMIT {
            match self.listener.accept() {
                Ok((stream, _)) => match link_over(stream, self.clock, self.patience) {
                    Some(link) => return Ok(link),
                    None => {}
                },
                Err(e) if e.kind() == ErrorKind::ConnectionAborted => {}
                Err(e) if may_wait(&e) => return Err(Stop::Waits),
                Err(_) => return Err(Stop::Failed),
            }
        }
        Err(Stop::Failed)
    }
}

impl<C: Clock + Copy> TryDoor<MioLink<C>> for MioDoor<C> {
    ghost left = { λ _. None };

    ghost faults = { λ d. d.faults };

    ghost waits = { λ d. d.waits };

    fn try_accept(&mut self) -> Result<Option<MioLink<C>>, Stop> {
        match self.next_link() {
            Ok(link) => Ok(Some(link)),
            Err(Stop::Waits) => {
                self.waits = self.waits.saturating_add(1);
                Err(Stop::Waits)
            }
            Err(Stop::Failed) => {
                self.faults = self.faults.saturating_add(1);
                Err(Stop::Failed)
            }
        }
    }
}
