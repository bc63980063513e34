ghost use Rattle.std.specs.Prelude.{◌≡◌, ◌<◌, [], Some, IsTrue, IsErr, IfOk, OnErr, is_err, length};
ghost use Rattle.std.specs.Io.KnownBytes.{WriteAppends};
ghost use Rattle.kap_io.specs.Causes.{HasCause};
ghost use Rattle.kap_io.specs.Pieces.{TakesSome};
ghost use Rattle.kap_io.specs.Fakes.{is_call_listed, is_listed, taken_of, MayRefuse, SinkCounts};

use crate::failed::Failed;
use crate::mem_source::is_listed;
use crate::sink::Sink;
use std::alloc::Global;
use std::marker::Model;

/// A sink in memory, which takes a few bytes a call, and fails at the calls that a list names. Where it finds
/// no memory for what it takes, it counts a fault and answers `Failed`.
#[derive(Drop)]
pub struct MemSink {
    bytes: Vec<u8>,
    step: usize,
    fails: Vec<u64>,
    calls: u64,
    faults: u64,
}

impl Model for MemSink {
    ghost use Rattle.std.specs.Prelude.{◌<◌, vec_capacity};
    ghost use Rattle.kap_io.specs.Fakes.{SinkState};

    ghost Value = { SinkState };

    ghost view = { λ s. record {
      bytes = s.bytes.items;
      step = s.step;
      fails = s.fails.items;
      calls = s.calls;
      faults = s.faults;
      room = vec_capacity s.bytes;
    } };

    ghost invariant = { λ s. 0 < s.step };
}

impl MemSink {
    /// An empty sink, which takes at most `step` bytes a call, and fails at the calls with these numbers, the
    /// first call being number 1.
    pub fn new(alloc: Global, step: usize, fails: Vec<u64>) -> Self
        requires { 0 < step }
        ensures made { (result.step ≡ step) × (result.fails ≡ fails.items) × (result.calls ≡ 0) }
        ensures written { ⟦<MemSink as Sink>⟧.written result ≡ Some [] }
        ensures faults { ⟦<MemSink as Sink>⟧.faults result ≡ 0 }
    {
        MemSink {
            bytes: Vec::new(alloc),
            step,
            fails,
            calls: 0,
            faults: 0,
        }
    }

    /// What was written.
    pub fn bytes(&self) -> &[u8]
        ensures bytes { result.now ≡ self.now.bytes }
        ensures written { ⟦<MemSink as Sink>⟧.written self.now ≡ Some result.now }
    {
        &self.bytes
    }
}

impl Sink for MemSink {
    ghost written = { λ s. Some s.bytes };

    ghost faults = { λ s. s.faults };

    /// It fails where the number of the call is listed, and else only where it has no room for what it takes
    /// and finds no memory. What it takes is a prefix of the piece, as long as its step allows.
    fn write(&mut self, piece: &[u8]) -> Result<usize, Failed>
        requires { 0 < length piece.now }
        ensures bound { TakesSome result piece.now }
        ensures bytes { WriteAppends (Some self.old.bytes) (Some self.new.bytes) result piece.now }
        ensures cause { HasCause self.old.faults self.new.faults result }
        ensures fails { IsTrue (is_call_listed self.old.fails self.old.calls) → IsErr result }
        ensures only { OnErr result (MayRefuse self.old (length piece.now)) }
        ensures count { IfOk result (λ n. n ≡ taken_of self.old (length piece.now)) }
        ensures counts { SinkCounts self.old self.new (is_err result) }
    {
        self.calls = self.calls.saturating_add(1);
        if is_listed(&self.fails, self.calls) {
            self.faults = self.faults.saturating_add(1);
            return Err(Failed);
        }
        let count = self.step.min(piece.len());
        match self.bytes.extend_from_slice(&piece[..count]) {
            Ok(()) => Ok(count),
            Err(_) => {
                self.faults = self.faults.saturating_add(1);
                Err(Failed)
            }
        }
    }
}
