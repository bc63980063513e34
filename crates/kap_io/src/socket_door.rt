//! Doors at TCP sockets that listen.

ghost use Rattle.std.specs.Prelude.{None};

use crate::door::Door;
use crate::failed::Failed;
use crate::patience::Patience;
use crate::socket_link::SocketLink;
use std::io::{Error, ErrorKind, Read, Write};
use std::net::{OpenListener, OpenStream};
use std::thread;
use std::time::{Clock, Duration};

/// A door at a socket that listens, of which each thread has a handle of its own, as `try_clone` gives it.
/// It tells no number, never answers `None`, and counts each `Err` but that of a client which is gone again, and
/// those of a shortage: it waits a quarter of a second behind each of these, and fails where some four minutes
/// pass so.
#[derive(Drop)]
pub struct SocketDoor<K: OpenListener + Drop, C: Clock + Copy> {
    listener: K,
    clock: C,
    patience: Patience,
    faults: u64,
}

impl<K: OpenListener + Drop, C: Clock + Copy> SocketDoor<K, C> {
    /// A door at this listener, which blocks, whose links wait so long.
    pub fn new(listener: K, clock: C, patience: Patience) -> Self {
        SocketDoor {
            listener,
            clock,
            patience,
            faults: 0,
        }
    }
}

/// How often a call tries: behind clients that are gone again, and behind shortages.
const TRY_LIMIT: u32 = 1_000;

/// How many milliseconds a call waits behind a shortage.
const PAUSE_MILLIS: u64 = 250;

/// No memory, and too many sockets of the system, of the process, and in its buffers, as Linux numbers them.
const SHORTAGES: [i32; 4] = [12, 23, 24, 105];

/// Whether the system or the process had no more sockets to give, so that a later call may get one.
pub fn is_shortage(error: &Error) -> bool {
    match error.raw_os_error() {
        Some(code) => SHORTAGES.contains(&code),
        None => false,
    }
}

/// The link over a socket that came, where it can be told how long its writes wait.
fn link_over<S: Read + Write + OpenStream + Drop, C: Clock + Copy>(
    stream: S,
    clock: C,
    patience: Patience,
) -> Option<SocketLink<S, C>> {
    if stream.set_nodelay(true).is_err() {
        return None;
    }
    if stream.set_write_timeout(Some(patience.idle)).is_err() {
        return None;
    }
    Some(SocketLink::new(stream, clock, patience))
}

impl<K: OpenListener<Stream: Read + Write + OpenStream + Drop> + Drop, C: Clock + Copy> Door<
    SocketLink<K::Stream, C>,
> for SocketDoor<K, C> {
    ghost left = { λ _. None };

    ghost faults = { λ d. d.faults };

    fn accept(&mut self) -> Result<Option<SocketLink<K::Stream, C>>, Failed> {
        for _ in 0..TRY_LIMIT {
            match self.listener.accept() {
                Ok((stream, _)) => match link_over(stream, self.clock, self.patience) {
                    Some(link) => return Ok(Some(link)),
                    None => {}
                },
                Err(e) if e.kind() == ErrorKind::ConnectionAborted => {}
                Err(e) if is_shortage(&e) => {
                    thread::sleep(&self.clock, Duration::from_millis(PAUSE_MILLIS));
                }
                Err(_) => break,
            }
        }
        self.faults = self.faults.saturating_add(1);
        Err(Failed)
    }
}
