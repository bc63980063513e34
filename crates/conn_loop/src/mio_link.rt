//! Links over sockets that don't wait. They tell no bytes.

ghost use Rattle.std.specs.Prelude.{None};

use kap_io::{Patience, Stop, TryLink};
use mio::net::TcpStream;
use std::io::{Error, ErrorKind, Read, Write};
use std::net::Shutdown;
use std::time::{Clock, Duration, Instant};

/// A link over a socket that doesn't wait. It tells no bytes, and counts each `Err` of a read and of a write
/// other than that it would wait, and each write that takes nothing. Where it would wait it has failed
/// instead, if no byte came and none was taken in time, or if the time for a request is up, which begins with
/// the first bytes since the last write: so somebody has to poll it again where nothing comes.
#[derive(Drop)]
pub struct MioLink<C: Clock + Copy> {
    pub(crate) stream: TcpStream,
    clock: C,
    patience: Patience,
    /// When bytes came or were taken last.
    last: Instant,
    /// When the first bytes since the last write came.
    since: Option<Instant>,
    /// How many pieces were read while it lingers.
    passed: u32,
    read_faults: u64,
    write_faults: u64,
    waits: u64,
}

/// Whether this time is over that began then, or the clock can't be read.
pub(crate) fn is_over<C: Clock>(clock: &C, since: Instant, time: Duration) -> bool {
    match since.elapsed(clock) {
        Ok(gone) => time <= gone,
        Err(_) => true,
    }
}

/// How long a link that has ended lingers.
const LINGER_SECONDS: u64 = 2;

/// How many bytes it reads at once meanwhile.
const LINGER_PIECE: usize = 4_096;

/// How many times: 4 MiB in all.
const LINGER_PIECES: u32 = 1_024;

impl<C: Clock + Copy> MioLink<C> {
    /// A link over this socket, which doesn't wait, with a clock that tells how long nothing comes.
    pub(crate) fn new(stream: TcpStream, clock: C, patience: Patience, now: Instant) -> Self {
        MioLink {
            stream,
            clock,
            patience,
            last: now,
            since: None,
            passed: 0,
            read_faults: 0,
            write_faults: 0,
            waits: 0,
        }
    }

    /// Whether its time is up.
    fn is_late(&self) -> bool {
        if is_over(&self.clock, self.last, self.patience.idle) {
            return true;
        }
        match self.since {
            Some(since) => is_over(&self.clock, since, self.patience.whole),
            None => false,
        }
    }

    /// Whether a call that ended so only has to wait.
    fn may_wait(&self, error: &Error) -> bool {
        error.kind() == ErrorKind::WouldBlock && !self.is_late()
    }

    /// The time now; where the clock can't be read, that at which bytes came or were taken last.
    fn now(&self) -> Instant {
        Instant::now(&self.clock).unwrap_or(self.last)
    }

    /// Says that no more is written, unless something has failed; whether it lingers. A socket that is closed
    /// over unread bytes is reset, and what was written before may not arrive.
    pub(crate) fn leaves(&mut self) -> bool {
        if 0 < self.read_faults || 0 < self.write_faults {
            return false;
        }
        self.last = self.now();
        self.stream.shutdown(Shutdown::Write).is_ok() && self.lingers()
    }

    /// Reads what came while it lingers, for at most 2 seconds and 4 MiB; whether more may come.
    pub(crate) fn lingers(&mut self) -> bool {
        let mut piece = [0; LINGER_PIECE];
        for _ in self.passed..LINGER_PIECES {
            match self.stream.read(&mut piece) {
                Ok(0) => return false,
                Ok(_) => self.passed = self.passed.saturating_add(1),
                Err(e) => {
                    let over = is_over(&self.clock, self.last, Duration::from_secs(LINGER_SECONDS));
                    return e.kind() == ErrorKind::WouldBlock && !over;
                }
            }
        }
        false
    }
}

impl<C: Clock + Copy> TryLink for MioLink<C> {
    ghost left = { λ _. None };

    ghost written = { λ _. None };

    ghost read_faults = { λ s. s.read_faults };

    ghost write_faults = { λ s. s.write_faults };

    ghost waits = { λ s. s.waits };

    fn try_read(&mut self, buf: &mut [u8]) -> Result<usize, Stop> {
        match self.stream.read(buf) {
            Ok(count) => {
                self.last = self.now();
                self.since = self.since.or(Some(self.last));
                Ok(count)
            }
            Err(e) if self.may_wait(&e) => {
                self.waits = self.waits.saturating_add(1);
                Err(Stop::Waits)
            }
            Err(_) => {
                self.read_faults = self.read_faults.saturating_add(1);
                Err(Stop::Failed)
            }
        }
    }

    fn try_write(&mut self, piece: &[u8]) -> Result<usize, Stop> {
        match self.stream.write(piece) {
            Ok(count) if 0 < count => {
                self.last = self.now();
                self.since = None;
                Ok(count)
            }
            Err(e) if self.may_wait(&e) => {
                self.waits = self.waits.saturating_add(1);
                Err(Stop::Waits)
            }
            _ => {
                self.write_faults = self.write_faults.saturating_add(1);
                Err(Stop::Failed)
            }
        }
    }
}
