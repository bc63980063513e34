//! What workers pass.

/// What a worker passes before each of its turns (this project). It promises nothing of a run: a test sees by
/// one that workers run beside each other, and counts their turns.
pub trait Gate {
    /// A worker, by its number from 0 on, is about to begin a turn, by its number from 0 on.
    fn pass(&self, worker: u32, turn: u64);
}

/// A gate at which nobody waits.
#[derive(Clone, Copy, Debug, PartialEq, Eq)]
pub struct NoGate;

impl Gate for NoGate {
    fn pass(&self, _worker: u32, _turn: u64) {}
}
