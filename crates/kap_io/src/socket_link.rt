//! Links over TCP sockets. They tell no bytes.

ghost use Rattle.std.specs.Prelude.{None};

use crate::failed::Failed;
use crate::link::Link;
use crate::patience::Patience;
use std::io::{Read, Write};
use std::net::{OpenStream, Shutdown};
use std::time::{Clock, Duration, Instant};

/// A link over a socket. It tells no bytes, and counts each `Err` of a read and of a write, and each write
/// that takes nothing. A read has failed, too, where no byte comes in time, or where the time for a request
/// is up, which begins with the first bytes since the last write; and a write where the socket takes nothing
/// in time, as `SocketDoor` tells it.
///
/// Where it is let go and nothing has failed, it lingers: it says that no more is written, and reads what
/// still comes, for at most 2 seconds and 4 MiB. A socket that is closed over unread bytes is reset, and what
/// was written before may not arrive.
pub struct SocketLink<S: Read + Write + OpenStream + Drop, C: Clock + Drop> {
    stream: S,
    clock: C,
    patience: Patience,
    /// When the first bytes since the last write came.
    since: Option<Instant>,
    read_faults: u64,
    write_faults: u64,
}

/// What is left of a time that began then; none where it is up, or the clock can't be read.
fn left_of<C: Clock>(clock: &C, since: Instant, time: Duration) -> Option<Duration> {
    match since.elapsed(clock) {
        Ok(gone) => time.checked_sub(gone),
        Err(_) => None,
    }
}

/// How long a read may wait that begins now.
fn wait_of<C: Clock>(clock: &C, since: Option<Instant>, patience: Patience) -> Option<Duration> {
    match since {
        None => Some(patience.idle),
        Some(since) => Some(left_of(clock, since, patience.whole)?.min(patience.idle)),
    }
}

impl<S: Read + Write + OpenStream + Drop, C: Clock + Drop> SocketLink<S, C> {
    /// A link over this socket, which blocks, with a clock that tells how long it waits.
    pub fn new(stream: S, clock: C, patience: Patience) -> Self {
        SocketLink {
            stream,
            clock,
            patience,
            since: None,
            read_faults: 0,
            write_faults: 0,
        }
    }

    /// Whether there is time left for a read, until which it may wait.
    fn may_read(&self) -> bool {
        match wait_of(&self.clock, self.since, self.patience) {
            None => false,
            Some(wait) => self.stream.set_read_timeout(Some(wait)).is_ok(),
        }
    }
}

impl<S: Read + Write + OpenStream + Drop, C: Clock + Drop> Link for SocketLink<S, C> {
    ghost left = { λ _. None };

    ghost written = { λ _. None };

    ghost read_faults = { λ s. s.read_faults };

    ghost write_faults = { λ s. s.write_faults };

    fn read(&mut self, buf: &mut [u8]) -> Result<usize, Failed> {
        if !self.may_read() {
            self.read_faults = self.read_faults.saturating_add(1);
            return Err(Failed);
        }
        match self.stream.read(buf) {
            Ok(count) => {
                if self.since.is_none() {
                    self.since = Instant::now(&self.clock).ok();
                }
                Ok(count)
            }
            Err(_) => {
                self.read_faults = self.read_faults.saturating_add(1);
                Err(Failed)
            }
        }
    }

    fn write(&mut self, piece: &[u8]) -> Result<usize, Failed> {
        match self.stream.write(piece) {
            Ok(count) if 0 < count => {
                self.since = None;
                Ok(count)
            }
            _ => {
                self.write_faults = self.write_faults.saturating_add(1);
                Err(Failed)
            }
        }
    }
}

/// How long a link that is let go lingers.
const LINGER_SECONDS: u64 = 2;

/// How many bytes it reads at once meanwhile.
const LINGER_PIECE: usize = 4_096;

/// How many times: 4 MiB in all.
const LINGER_PIECES: u32 = 1_024;

/// Reads a piece within what is left of a time; whether bytes came.
fn passes_some<S: Read + OpenStream>(stream: &mut S, wait: Option<Duration>) -> bool {
    let mut piece = [0; LINGER_PIECE];
    if wait.is_none() || stream.set_read_timeout(wait).is_err() {
        return false;
    }
    match stream.read(&mut piece) {
        Ok(count) => 0 < count,
        Err(_) => false,
    }
}

/// Says that no more is written, and reads what still comes, for a while.
fn linger<S: Read + OpenStream, C: Clock>(stream: &mut S, clock: &C) {
    if stream.shutdown(Shutdown::Write).is_err() {
        return;
    }
    let Ok(since) = Instant::now(clock) else {
        return;
    };
    for _ in 0..LINGER_PIECES {
        let wait = left_of(clock, since, Duration::from_secs(LINGER_SECONDS));
        if !passes_some(stream, wait) {
            return;
        }
    }
}

impl<S: Read + Write + OpenStream + Drop, C: Clock + Drop> Drop for SocketLink<S, C> {
    fn drop(self) {
        let Self {
            mut stream,
            clock,
            patience: _,
            since: _,
            read_faults,
            write_faults,
        } = self;
        if read_faults == 0 && write_faults == 0 {
            linger(&mut stream, &clock);
        }
    }
}
