//! A disk in memory, of which a write waits.

ghost use Rattle.std.specs.Prelude.{[], false};

use kap_io::{Disk, Failed, MemDisk, Part};
use std::sync::{Barrier, Wait};

/// Where a write waits: until somebody has come, and then until he goes.
#[derive(Clone, Copy)]
pub struct Hold<'a, W: Wait> {
    pub rt: &'a W,
    pub came: &'a Barrier,
    pub goes: &'a Barrier,
}

impl<'a, W: Wait> Hold<'a, W> {
    fn wait(&self) {
        self.came.wait(self.rt);
        self.goes.wait(self.rt);
    }
}

/// A disk in memory, whose first write waits. It tells no contents.
#[derive(Drop)]
pub struct HeldDisk<'a, W: Wait> {
    disk: MemDisk,
    hold: Option<Hold<'a, W>>,
}

impl<'a, W: Wait> HeldDisk<'a, W> {
    pub fn new(disk: MemDisk, hold: Hold<'a, W>) -> HeldDisk<'a, W> {
        HeldDisk {
            disk,
            hold: Some(hold),
        }
    }
}

impl<'a, W: Wait> Disk for HeldDisk<'a, W> {
    ghost tells = { false };

    ghost seen = { λ _ _. [] };

    ghost may_leave = { λ _ _. Unit {0} };

    ghost moment = { λ _. 0 };

    ghost left_since = { λ _ _ _. Unit {0} };

    ghost faults = { λ d. d.disk.calls.faults };

    ghost reads_as = { λ _ _. tt };

    ghost counts_now = { λ _ _ _ _ _ _. tt };

    ghost only_now = { λ _ _ _ _. tt };

    fn size(&mut self, part: Part) -> Result<u64, Failed> {
        self.disk.size(part)
    }

    fn read(&mut self, part: Part, at: u64, buf: &mut [u8]) -> Result<usize, Failed> {
        self.disk.read(part, at, buf)
    }

    fn write_at(&mut self, part: Part, at: u64, piece: &[u8]) -> Result<(), Failed> {
        if let Some(hold) = self.hold.take() {
            hold.wait();
        }
        self.disk.write_at(part, at, piece)
    }

    fn cut(&mut self, part: Part, size: u64) -> Result<(), Failed> {
        self.disk.cut(part, size)
    }

    fn sync(&mut self, part: Part) -> Result<(), Failed> {
        self.disk.sync(part)
    }
}
