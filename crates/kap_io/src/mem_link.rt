ghost use Rattle.std.specs.Prelude.{◌≡◌, ◌<◌, ◌≤◌, ◌↔◌, [], Some, IsTrue, IsErr, IfOk, OnErr, is_err, length};
ghost use Rattle.std.specs.Io.{ReadsAtMost};
ghost use Rattle.std.specs.Io.KnownBytes.{ReadConsumes, WriteAppends};
ghost use Rattle.kap_io.specs.Causes.{HasCause};
ghost use Rattle.kap_io.specs.Fakes.{is_call_listed, given_of, taken_of};
ghost use Rattle.kap_io.specs.Links.{LinkReads, LinkWrites, MayRefuseLink};
ghost use Rattle.kap_io.specs.Pieces.{Keeps, TakesSome};

use crate::failed::Failed;
use crate::link::Link;
use crate::mem_sink::MemSink;
use crate::mem_source::{MemSource, is_listed};
use crate::sink::Sink;
use crate::source::Source;
use std::alloc::Global;
use std::marker::Model;

/// A connection in memory: it gives and takes a few bytes a call, and fails at the calls that a list names,
/// reads and writes numbered together.
#[derive(Drop)]
pub struct MemLink {
    source: MemSource,
    sink: MemSink,
    fails: Vec<u64>,
    calls: u64,
    read_faults: u64,
    write_faults: u64,
}

impl Model for MemLink {
    ghost use Rattle.std.specs.Prelude.{◌≡◌, []};
    ghost use Rattle.kap_io.specs.Links.{LinkState};

    ghost Value = { LinkState };

    ghost view = { λ l. record {
      source = l.source;
      sink = l.sink;
      fails = l.fails.items;
      calls = l.calls;
      read_faults = l.read_faults;
      write_faults = l.write_faults;
    } };

    ghost invariant = { λ l. (l.source.fails ≡ []) × (l.sink.fails ≡ []) };
}

impl MemLink {
    /// A connection over which these bytes come, at most `step` of them a call, which takes at most `step`
    /// bytes a call, and fails at the calls with these numbers, the first call being number 1.
    pub fn new(alloc: Global, bytes: Vec<u8>, step: usize, fails: Vec<u64>) -> Self
        requires { 0 < step }
        ensures fails { result.fails ≡ fails.items }
        ensures calls { result.calls ≡ 0 }
        ensures step { (result.source.step ≡ step) × (result.sink.step ≡ step) }
        ensures left { ⟦<MemLink as Link>⟧.left result ≡ Some bytes.items }
        ensures written { ⟦<MemLink as Link>⟧.written result ≡ Some [] }
        ensures read_faults { ⟦<MemLink as Link>⟧.read_faults result ≡ 0 }
        ensures write_faults { ⟦<MemLink as Link>⟧.write_faults result ≡ 0 }
    {
        MemLink {
            source: MemSource::new(alloc, bytes, step, Vec::new(alloc)),
            sink: MemSink::new(alloc, step, Vec::new(alloc)),
            fails,
            calls: 0,
            read_faults: 0,
            write_faults: 0,
        }
    }

    /// What was written.
    pub fn bytes(&self) -> &[u8]
        ensures { ⟦<MemLink as Link>⟧.written self.now ≡ Some result.now }
    {
        self.sink.bytes()
    }
}

impl Link for MemLink {
    ghost left = { λ l. Some l.source.left };

    ghost written = { λ l. Some l.sink.bytes };

    ghost read_faults = { λ l. l.read_faults };

    ghost write_faults = { λ l. l.write_faults };

    /// It fails exactly where the number of the call is listed. Else it gives as many bytes as its step, what
    /// is left and the buffer allow.
    fn read(&mut self, buf: &mut [u8]) -> Result<usize, Failed>
        requires { 0 < length buf.old }
        ensures bound { ReadsAtMost result buf.new }
        ensures bytes { ReadConsumes (Some self.old.source.left) (Some self.new.source.left) result
            buf.new }
        ensures kept { Keeps (Some self.old.sink.bytes) (Some self.new.sink.bytes) }
        ensures cause { HasCause self.old.read_faults self.new.read_faults result }
        ensures other { self.old.write_faults ≤ self.new.write_faults }
        ensures fails { IsErr result ↔ IsTrue (is_call_listed self.old.fails self.old.calls) }
        ensures count { IfOk result (λ n. n ≡ given_of self.old.source (length buf.old)) }
        ensures counts { LinkReads self.old self.new (is_err result) }
    {
        self.calls = self.calls.saturating_add(1);
        if is_listed(&self.fails, self.calls) {
            self.read_faults = self.read_faults.saturating_add(1);
            return Err(Failed);
        }
        match self.source.read(buf) {
            Ok(count) => Ok(count),
            Err(Failed) => {
                self.read_faults = self.read_faults.saturating_add(1);
                Err(Failed)
            }
        }
    }

    /// It fails where the number of the call is listed, and else only where it has no room for what it takes
    /// and finds no memory. What it takes is a prefix of the piece, as long as its step allows.
    fn write(&mut self, piece: &[u8]) -> Result<usize, Failed>
        requires { 0 < length piece.now }
        ensures bound { TakesSome result piece.now }
        ensures bytes { WriteAppends (Some self.old.sink.bytes) (Some self.new.sink.bytes) result
            piece.now }
        ensures kept { Keeps (Some self.old.source.left) (Some self.new.source.left) }
        ensures cause { HasCause self.old.write_faults self.new.write_faults result }
        ensures other { self.old.read_faults ≤ self.new.read_faults }
        ensures fails { IsTrue (is_call_listed self.old.fails self.old.calls) → IsErr result }
        ensures only { OnErr result (MayRefuseLink self.old (length piece.now)) }
        ensures count { IfOk result (λ n. n ≡ taken_of self.old.sink (length piece.now)) }
        ensures counts { LinkWrites self.old self.new (is_err result) }
    {
        self.calls = self.calls.saturating_add(1);
        if is_listed(&self.fails, self.calls) {
            self.write_faults = self.write_faults.saturating_add(1);
            return Err(Failed);
        }
        match self.sink.write(piece) {
            Ok(count) => Ok(count),
            Err(Failed) => {
                self.write_faults = self.write_faults.saturating_add(1);
                Err(Failed)
            }
        }
    }
}
