ghost use Rattle.std.specs.Prelude.{◌≡◌, ◌+◌, ℕ};
ghost use Rattle.node_core.specs.Numbering.{number_at, counted};
ghost use Rattle.node_core.specs.RunningSpelling.{FitsRunning, spell_running, read_running, running_spelled};

use kap_base::{Bytes, NoMemory};
use state_code::{CodeFault, Cursor, Spelled};
use std::alloc::Global;

/// The last stamp with which effects were given, and how many.
#[derive(Clone, Copy, Debug, PartialEq, Eq)]
pub struct Tally {
    /// The stamp, 0 before the first effect.
    pub stamp: u64,
    /// How many effects were given with it.
    pub count: u32,
}

impl Tally {
    /// How many effects were given with this stamp, where it is the last one.
    pub fn number_at(&self, stamp: u64) -> u32
        ensures { result ≡ number_at self.now stamp }
    {
        if self.stamp == stamp { self.count } else { 0 }
    }

    /// The tally behind effects with this stamp, where the next one has this number.
    #[tactic(auto, using(crate::proofs::Loops::counted_to))]
    pub fn counted_to(&self, stamp: u64, next: u32) -> Tally
        ensures { (more : ℕ) → next ≡ number_at self.now stamp + more
            → result ≡ counted self.now stamp more }
    {
        if next == self.number_at(stamp) {
            *self
        } else {
            Tally { stamp, count: next }
        }
    }
}

/// The state of a node: how far its effects are numbered, how many inputs were dropped and counted, and what
/// its kind keeps.
#[derive(Debug, Drop)]
pub struct Running<S> {
    /// How far its effects are numbered.
    pub tally: Tally,
    /// How many inputs were dropped and counted.
    pub dropped: u64,
    /// What its kind keeps.
    pub inner: S,
}

/// The last stamp with which effects were given, their number, the number of inputs dropped, and what the
/// kind keeps.
impl<S: Spelled + Drop> Spelled for Running<S> {
    ghost fits = { FitsRunning S.fits };

    ghost spell = { spell_running S.spell };

    ghost read = { read_running S.read };

    ghost spelled = { running_spelled S.spelled };

    fn append_spelling(&self, to: &mut Bytes) -> Result<(), NoMemory> {
        self.tally.stamp.append_spelling(to)?;
        self.tally.count.append_spelling(to)?;
        self.dropped.append_spelling(to)?;
        self.inner.append_spelling(to)
    }

    fn read_spelling(alloc: Global, from: &mut Cursor) -> Result<Running<S>, CodeFault> {
        let stamp = from.u64()?;
        let count = from.u32()?;
        let dropped = from.u64()?;
        let inner = S::read_spelling(alloc, from)?;
        Ok(Running {
            tally: Tally { stamp, count },
            dropped,
            inner,
        })
    }
}
