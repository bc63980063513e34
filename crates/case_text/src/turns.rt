//! A gate that counts the turns of workers.

use kap_io::Gate;
use std::sync::atomic::{AtomicU64, Ordering};
use std::thread;

/// How often a held worker looks at most.
const LOOKS: u64 = 20_000_000;

/// How many turns a worker has had, so far.
#[derive(Drop)]
struct Turns(AtomicU64);

impl Turns {
    fn new() -> Turns {
        Turns(AtomicU64::new(0))
    }

    fn count(&self) -> u64 {
        self.0.load(Ordering::SeqCst)
    }

    fn rise(&self) {
        self.0.fetch_add(1, Ordering::SeqCst);
    }
}

/// A gate that counts the turns of at most five workers, and holds the second turn of worker 0 until each
/// other one has had one.
#[derive(Drop)]
pub struct Holding {
    workers: u32,
    first: Turns,
    second: Turns,
    third: Turns,
    fourth: Turns,
    fifth: Turns,
    // How often the limit of looks was met.
    missed: Turns,
}

impl Gate for Holding {
    fn pass(&self, worker: u32, turn: u64) {
        self.turns_of(worker).rise();
        if worker == 0 && turn == 1 {
            self.wait();
        }
    }
}

impl Holding {
    /// A gate of so many workers, none of which has had a turn.
    pub fn new(workers: u32) -> Holding {
        Holding {
            workers,
            first: Turns::new(),
            second: Turns::new(),
            third: Turns::new(),
            fourth: Turns::new(),
            fifth: Turns::new(),
            missed: Turns::new(),
        }
    }

    /// The turns of a worker.
    fn turns_of(&self, worker: u32) -> &Turns {
        match worker {
            0 => &self.first,
            1 => &self.second,
            2 => &self.third,
            3 => &self.fourth,
            _ => &self.fifth,
        }
    }

    /// The fewest turns that came of a worker.
    pub fn fewest(&self) -> u64 {
        let mut fewest = u64::MAX;
        for worker in 0..self.workers {
            fewest = fewest.min(self.turns_of(worker).count());
        }
        fewest
    }

    /// How often worker 0 went on without the others.
    pub fn missed(&self) -> u64 {
        self.missed.count()
    }

    /// A worker comes to its second turn behind its first one.
    fn wait(&self) {
        for _ in 0..LOOKS {
            if self.fewest() > 1 {
                return;
            }
            thread::yield_now();
        }
        self.missed.rise();
    }
}
