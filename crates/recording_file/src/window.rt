ghost use Rattle.std.specs.Prelude.{◌≡◌, List, ℕ, ◌⊎◌, Ok, IfErr, ◌+◌, ◌-◌, ◌<◌, ◌≤◌, [], length, take, drop, IfOk, OnErr, OnOk};
ghost use Rattle.std.specs.Io.KnownBytes.{Consumes, Keeps, IsAtEnd};
ghost use Rattle.kap_io.specs.Causes.{HasCause};
ghost use Rattle.recording_file.specs.Causes.{HasReadCause};

use crate::fault::RecFault;
use kap_base::NoMemory;
use kap_io::{Failed, Source};
use std::alloc::Global;
use std::marker::Model;

/// How many bytes are asked of a source at once.
const PIECE: usize = 262_144;

/// The bytes that were read and not yet given, which contracts see as their list.
#[derive(Drop)]
pub struct Window {
    buffer: Vec<u8>,
    start: usize,
    end: usize,
}

impl Model for Window {
    ghost use Rattle.std.specs.Prelude.{List, ℕ, drop, take, length, ◌≤◌};

    ghost Value = { List ℕ };

    ghost view = { λ w. drop w.start (take w.end w.buffer.items) };

    ghost invariant = { λ w. (w.start ≤ w.end) × (w.end ≤ length w.buffer.items) };
}

impl Window {
    /// No bytes.
    pub fn new(alloc: Global) -> Window
        ensures { result ≡ [] }
    {
        Window {
            buffer: Vec::new(alloc),
            start: 0,
            end: 0,
        }
    }

    /// The bytes that it holds.
    pub fn bytes(&self) -> &[u8]
        ensures { result.now ≡ self.now }
    {
        let (filled, _) = self.buffer.split_at(self.end);
        let (_, held) = filled.split_at(self.start);
        held
    }

    /// Reads a piece of the source behind the bytes that it holds, and answers how many bytes came: 0 only at
    /// the source's end. `ReadFault` comes only where the source's count of faults rose in this call.
    pub fn fill<S: Source>(&mut self, source: &mut S) -> Result<usize, RecFault>
        ensures kept { take (length self.old) self.new ≡ self.old }
        ensures len { IfOk result (λ n. length self.new ≡ length self.old + n) }
        ensures bytes { OnOk result
            (Consumes (S.left source.old) (S.left source.new) (drop (length self.old) self.new)) }
        ensures end { IfOk result (λ n. n ≡ 0 → IsAtEnd (S.left source.new)) }
        ensures err { OnErr result
            ((self.new ≡ self.old) × Keeps (S.left source.old) (S.left source.new)) }
        ensures only { IfErr result (λ f. (f ≡ RecFault.ReadFault) ⊎ (f ≡ RecFault.NoMemory)) }
        ensures cause { HasReadCause (S.faults source.old) (S.faults source.new) result }
    {
        bring_forward(&mut self.buffer, self.start, self.end);
        self.end -= self.start;
        self.start = 0;
        let count = append(source, &mut self.buffer, self.end)?;
        self.end += count;
        Ok(count)
    }

    /// Gives away the first bytes.
    pub fn skip(&mut self, count: usize)
        requires { count ≤ length self.old }
        ensures { self.new ≡ drop count self.old }
    {
        self.start += count;
    }
}

/// Moves the bytes from `start` to before `end` to the front.
fn bring_forward(buffer: &mut [u8], start: usize, end: usize)
    requires start { start ≤ end }
    requires end { end ≤ length buffer.old }
    ensures { take (end - start) buffer.new ≡ drop start (take end buffer.old) }
{
    if 0 < start {
        buffer.copy_within(start..end, 0);
    }
}

/// Sees that there is room behind the first `end` bytes.
fn make_room(buffer: &mut Vec<u8>, end: usize) -> Result<(), NoMemory>
    requires { end ≤ length buffer.old.items }
    ensures room { OnOk result (end < length buffer.new.items) }
    ensures kept { take end buffer.new.items ≡ take end buffer.old.items }
    ensures long { end ≤ length buffer.new.items }
{
    if buffer.len() - end < PIECE {
        buffer.resize(end + PIECE, 0)?;
    }
    Ok(())
}

/// Reads behind the first `end` bytes.
fn read_behind<S: Source>(source: &mut S, buffer: &mut [u8], end: usize) -> Result<usize, Failed>
    requires { end < length buffer.old }
    ensures kept { take end buffer.new ≡ take end buffer.old }
    ensures bound { IfOk result (λ n. n + end ≤ length buffer.new) }
    ensures bytes { IfOk result (λ n.
        Consumes (S.left source.old) (S.left source.new) (take n (drop end buffer.new))) }
    ensures end { IfOk result (λ n. n ≡ 0 → IsAtEnd (S.left source.new)) }
    ensures err { OnErr result (Keeps (S.left source.old) (S.left source.new)) }
    ensures cause { HasCause (S.faults source.old) (S.faults source.new) result }
{
    let (_, room) = buffer.split_at_mut(end);
    source.read(room)
}

/// Reads a piece of the source behind the first `end` bytes.
fn append<S: Source>(source: &mut S, buffer: &mut Vec<u8>, end: usize) -> Result<usize, RecFault>
    requires { end ≤ length buffer.old.items }
    ensures kept { take end buffer.new.items ≡ take end buffer.old.items }
    ensures bound { IfOk result (λ n. n + end ≤ length buffer.new.items) }
    ensures long { end ≤ length buffer.new.items }
    ensures bytes { IfOk result (λ n.
        Consumes (S.left source.old) (S.left source.new) (take n (drop end buffer.new.items))) }
    ensures end { IfOk result (λ n. n ≡ 0 → IsAtEnd (S.left source.new)) }
    ensures err { OnErr result (Keeps (S.left source.old) (S.left source.new)) }
    ensures only { IfErr result (λ f. (f ≡ RecFault.ReadFault) ⊎ (f ≡ RecFault.NoMemory)) }
    ensures cause { HasReadCause (S.faults source.old) (S.faults source.new) result }
{
    make_room(buffer, end)?;
    let count = read_behind(source, buffer, end)?;
    Ok(count)
}
