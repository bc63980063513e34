ghost use Rattle.std.specs.Prelude.{◌≡◌};
ghost use Rattle.gate_log.specs.declared.fault.LogFault.TheVariants.{DiskFault, NoMemory as no_memory};

use kap_base::NoMemory;
use kap_io::Failed;
use std::alloc::{AllocError, AllocFailed};

/// Why a log, or a head, refuses.
#[derive(Clone, Copy, Debug, PartialEq, Eq)]
pub enum LogFault {
    /// The file doesn't begin as a log does, or the head as a head does.
    Header,
    /// The record whose gate stands at this offset, or the gate behind it, runs past the end of the file.
    Torn(u64),
    /// The disk failed: its count of faults rose in the call.
    DiskFault,
    /// The body has more than `BODY_LIMIT` bytes.
    Long,
    /// Memory ran out.
    NoMemory,
}

impl From<Failed> for LogFault {
    ghost from_gives = { λ _ e. e ≡ DiskFault };

    fn from(_: Failed) -> Self {
        LogFault::DiskFault
    }
}

impl From<NoMemory> for LogFault {
    ghost from_gives = { λ _ e. e ≡ no_memory };

    fn from(_: NoMemory) -> Self {
        LogFault::NoMemory
    }
}

impl From<AllocError> for LogFault {
    ghost from_gives = { λ _ e. e ≡ no_memory };

    fn from(_: AllocError) -> Self {
        LogFault::NoMemory
    }
}

impl<T: Drop> From<AllocFailed<T>> for LogFault {
    ghost from_gives = { λ _ e. e ≡ no_memory };

    fn from(_: AllocFailed<T>) -> Self {
        LogFault::NoMemory
    }
}
