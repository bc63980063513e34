ghost use Rattle.std.specs.Prelude.{◌≡◌, ◌≤◌, ◌<◌, ◌↔◌, Some, IsTrue, IsErr, IfOk, is_err, min, length, take};
ghost use Rattle.std.specs.Io.{ReadsAtMost};
ghost use Rattle.std.specs.Io.KnownBytes.{ReadConsumes};
ghost use Rattle.kap_io.specs.Causes.{HasCause};
ghost use Rattle.kap_io.specs.Fakes.{is_call_listed, is_listed, given_of, SourceCounts};

use crate::failed::Failed;
use crate::source::Source;
use std::alloc::Global;
use std::marker::Model;

/// A source in memory, which gives a few bytes a call, and fails at the calls that a list names.
#[derive(Drop)]
pub struct MemSource {
    bytes: Vec<u8>,
    step: usize,
    fails: Vec<u64>,
    at: usize,
    calls: u64,
    faults: u64,
}

impl Model for MemSource {
    ghost use Rattle.std.specs.Prelude.{◌≤◌, ◌<◌, length, drop};
    ghost use Rattle.kap_io.specs.Fakes.{SourceState};

    ghost Value = { SourceState };

    ghost view = { λ s. record {
      left = drop s.at s.bytes.items;
      step = s.step;
      fails = s.fails.items;
      calls = s.calls;
      faults = s.faults;
    } };

    ghost invariant = { λ s. (s.at ≤ length s.bytes.items) × (0 < s.step) };
}

impl MemSource {
    /// A source of these bytes, which gives at most `step` of them a call, and fails at the calls with these
    /// numbers, the first call being number 1.
    pub fn new(_alloc: Global, bytes: Vec<u8>, step: usize, fails: Vec<u64>) -> Self
        requires { 0 < step }
        ensures state { result ≡ record {
          left = bytes.items;
          step = step;
          fails = fails.items;
          calls = 0;
          faults = 0;
        } }
        ensures left { ⟦<MemSource as Source>⟧.left result ≡ Some bytes.items }
        ensures faults { ⟦<MemSource as Source>⟧.faults result ≡ 0 }
    {
        MemSource {
            bytes,
            step,
            fails,
            at: 0,
            calls: 0,
            faults: 0,
        }
    }
}

impl Source for MemSource {
    ghost left = { λ s. Some s.left };

    ghost faults = { λ s. s.faults };

    /// It fails exactly where the number of the call is listed. Else it gives as many bytes as its step, what
    /// is left and the buffer allow.
    fn read(&mut self, buf: &mut [u8]) -> Result<usize, Failed>
        requires { 0 < length buf.old }
        ensures bound { ReadsAtMost result buf.new }
        ensures bytes { ReadConsumes (Some self.old.left) (Some self.new.left) result buf.new }
        ensures cause { HasCause self.old.faults self.new.faults result }
        ensures fails { IsErr result ↔ IsTrue (is_call_listed self.old.fails self.old.calls) }
        ensures count { IfOk result (λ n. n ≡ given_of self.old (length buf.old)) }
        ensures counts { SourceCounts self.old self.new (is_err result) }
    {
        self.calls = self.calls.saturating_add(1);
        if is_listed(&self.fails, self.calls) {
            self.faults = self.faults.saturating_add(1);
            return Err(Failed);
        }
        let (_, left) = self.bytes.split_at(self.at);
        let count = give(left, self.step, buf);
        self.at += count;
        Ok(count)
    }
}

/// Whether the call with this number is one of those that fail.
pub(crate) fn is_listed(fails: &[u64], call: u64) -> bool
    ensures { result ≡ is_listed fails.now call }
{
    fails.contains(&call)
}

/// Copies the first bytes to the front of `buf`, as many as a step and the buffer allow.
fn give(bytes: &[u8], step: usize, buf: &mut [u8]) -> usize
    ensures count { result ≡ min step (min (length bytes.now) (length buf.old)) }
    ensures size { length buf.new ≡ length buf.old }
    ensures bytes { take result buf.new ≡ take result bytes.now }
{
    let count = step.min(bytes.len().min(buf.len()));
    buf[..count].copy_from_slice(&bytes[..count]);
    count
}
