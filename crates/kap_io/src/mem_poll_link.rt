ghost use Rattle.std.specs.Prelude.{◌≡◌, ◌<◌, ◌+◌, ◌⊎◌, ◌↔◌, [], Some, Err, IsTrue, IfOk, length};
ghost use Rattle.std.specs.Io.{ReadsAtMost};
ghost use Rattle.std.specs.Io.KnownBytes.{ReadConsumes, WriteAppends};
ghost use Rattle.kap_io.specs.Fakes.{given_of, taken_of};
ghost use Rattle.kap_io.specs.Pieces.{Keeps, TakesSome};
ghost use Rattle.kap_io.specs.Tries.{MayStop, TryCounts, fails_next, waits_next};

use crate::failed::Failed;
use crate::mem_sink::MemSink;
use crate::mem_source::{MemSource, is_listed};
use crate::poll_link::PollLink;
use crate::sink::Sink;
use crate::source::Source;
use crate::try_link::{Stop, TryLink};
use futures::task::{Context, Poll};
use std::alloc::Global;
use std::marker::Model;

/// A connection in memory whose calls never wait: it gives and takes a few bytes a call, and fails, or would
/// have to wait, at the calls that two lists name, reads and writes numbered together. Where a call is in
/// both, it fails. A task that is registered is woken at once.
#[derive(Drop)]
pub struct MemPollLink {
    source: MemSource,
    sink: MemSink,
    waits: Vec<u64>,
    fails: Vec<u64>,
    calls: u64,
    read_faults: u64,
    write_faults: u64,
    waited: u64,
}

impl Model for MemPollLink {
    ghost use Rattle.std.specs.Prelude.{◌≡◌, []};
    ghost use Rattle.kap_io.specs.Tries.{TryState};

    ghost Value = { TryState };

    ghost view = { λ l. record {
      source = l.source;
      sink = l.sink;
      waits = l.waits.items;
      fails = l.fails.items;
      calls = l.calls;
      read_faults = l.read_faults;
      write_faults = l.write_faults;
      waited = l.waited;
    } };

    ghost invariant = { λ l. (l.source.fails ≡ []) × (l.sink.fails ≡ []) };
}

impl MemPollLink {
    /// A connection over which these bytes come, at most `step` of them a call, which takes at most `step`
    /// bytes a call, and would have to wait, or fails, at the calls with these numbers, the first call being
    /// number 1.
    pub fn new(alloc: Global, bytes: Vec<u8>, step: usize, waits: Vec<u64>, fails: Vec<u64>) -> Self
        requires { 0 < step }
        ensures waits { result.waits ≡ waits.items }
        ensures fails { result.fails ≡ fails.items }
        ensures calls { result.calls ≡ 0 }
        ensures step { (result.source.step ≡ step) × (result.sink.step ≡ step) }
        ensures left { ⟦<MemPollLink as TryLink>⟧.left result ≡ Some bytes.items }
        ensures written { ⟦<MemPollLink as TryLink>⟧.written result ≡ Some [] }
        ensures read_faults { ⟦<MemPollLink as TryLink>⟧.read_faults result ≡ 0 }
        ensures write_faults { ⟦<MemPollLink as TryLink>⟧.write_faults result ≡ 0 }
        ensures waited { ⟦<MemPollLink as TryLink>⟧.waits result ≡ 0 }
    {
        MemPollLink {
            source: MemSource::new(alloc, bytes, step, Vec::new(alloc)),
            sink: MemSink::new(alloc, step, Vec::new(alloc)),
            waits,
            fails,
            calls: 0,
            read_faults: 0,
            write_faults: 0,
            waited: 0,
        }
    }

    /// What was written.
    pub fn bytes(&self) -> &[u8]
        ensures { ⟦<MemPollLink as TryLink>⟧.written self.now ≡ Some result.now }
    {
        self.sink.bytes()
    }
}

impl TryLink for MemPollLink {
    ghost left = { λ l. Some l.source.left };

    ghost written = { λ l. Some l.sink.bytes };

    ghost read_faults = { λ l. l.read_faults };

    ghost write_faults = { λ l. l.write_faults };

    ghost waits = { λ l. l.waited };

    /// It fails and waits exactly where the number of the call is listed. Else it gives as many bytes as its
    /// step, what is left and the buffer allow.
    fn try_read(&mut self, buf: &mut [u8]) -> Result<usize, Stop>
        requires { 0 < length buf.old }
        ensures bound { ReadsAtMost result buf.new }
        ensures bytes { ReadConsumes (Some self.old.source.left) (Some self.new.source.left) result
            buf.new }
        ensures kept { Keeps (Some self.old.sink.bytes) (Some self.new.sink.bytes) }
        ensures cause { MayStop self.old.read_faults self.new.read_faults self.old.write_faults
            self.new.write_faults self.old.waited self.new.waited result }
        ensures fails { (result ≡ Err Stop.Failed) ↔ IsTrue (fails_next self.old) }
        ensures waits { (result ≡ Err Stop.Waits) ↔ IsTrue (waits_next self.old) }
        ensures count { IfOk result (λ n. n ≡ given_of self.old.source (length buf.old)) }
        ensures counts { TryCounts self.old self.new }
    {
        self.calls = self.calls.saturating_add(1);
        if is_listed(&self.fails, self.calls) {
            self.read_faults = self.read_faults.saturating_add(1);
            return Err(Stop::Failed);
        }
        if is_listed(&self.waits, self.calls) {
            self.waited = self.waited.saturating_add(1);
            return Err(Stop::Waits);
        }
        match self.source.read(buf) {
            Ok(count) => Ok(count),
            Err(Failed) => {
                self.read_faults = self.read_faults.saturating_add(1);
                Err(Stop::Failed)
            }
        }
    }

    /// It fails and waits where the number of the call is listed, and else fails only where it has no room
    /// for what it takes and finds no memory. What it takes is a prefix of the piece, as long as its step
    /// allows.
    fn try_write(&mut self, piece: &[u8]) -> Result<usize, Stop>
        requires { 0 < length piece.now }
        ensures bound { TakesSome result piece.now }
        ensures bytes { WriteAppends (Some self.old.sink.bytes) (Some self.new.sink.bytes) result
            piece.now }
        ensures kept { Keeps (Some self.old.source.left) (Some self.new.source.left) }
        ensures cause { MayStop self.old.write_faults self.new.write_faults self.old.read_faults
            self.new.read_faults self.old.waited self.new.waited result }
        ensures fails { IsTrue (fails_next self.old) → result ≡ Err Stop.Failed }
        ensures only { result ≡ Err Stop.Failed → IsTrue (fails_next self.old) ⊎
            (self.old.sink.room < length self.old.sink.bytes + taken_of self.old.sink (length piece.now)) }
        ensures waits { (result ≡ Err Stop.Waits) ↔ IsTrue (waits_next self.old) }
        ensures count { IfOk result (λ n. n ≡ taken_of self.old.sink (length piece.now)) }
        ensures counts { TryCounts self.old self.new }
    {
        self.calls = self.calls.saturating_add(1);
        if is_listed(&self.fails, self.calls) {
            self.write_faults = self.write_faults.saturating_add(1);
            return Err(Stop::Failed);
        }
        if is_listed(&self.waits, self.calls) {
            self.waited = self.waited.saturating_add(1);
            return Err(Stop::Waits);
        }
        match self.sink.write(piece) {
            Ok(count) => Ok(count),
            Err(Failed) => {
                self.write_faults = self.write_faults.saturating_add(1);
                Err(Stop::Failed)
            }
        }
    }
}

impl PollLink for MemPollLink {
    fn register(&mut self, cx: &mut Context<'_>) {
        let _: Poll<()> = cx.yield_now();
    }
}
