ghost use Rattle.std.specs.Prelude.{◌≡◌};
ghost use Rattle.recording_file.specs.declared.fault.RecFault.TheVariants.{NoMemory as no_memory, ReadFault as read_fault};

use kap_base::NoMemory;
use kap_io::Failed;
use line_points::LineFault;
use std::alloc::{AllocError, AllocFailed};

/// Why a recording gives no further point.
#[derive(Clone, Copy, Debug, PartialEq, Eq)]
pub enum RecFault {
    /// This line, numbered from 1, is no database, no policy or no line of the line protocol.
    Line { line: u64, fault: LineFault },
    /// The recording ends inside a group of three lines: the line with this number is missing.
    Truncated { line: u64 },
    /// The recording has more than `RECORDING_LIMIT` bytes, and the point that is due isn't complete within
    /// these.
    Long,
    /// The source failed.
    ReadFault,
    /// Memory ran out.
    NoMemory,
}

impl From<Failed> for RecFault {
    ghost from_gives = { λ _ e. e ≡ read_fault };

    fn from(_: Failed) -> Self {
        RecFault::ReadFault
    }
}

impl From<NoMemory> for RecFault {
    ghost from_gives = { λ _ e. e ≡ no_memory };

    fn from(_: NoMemory) -> Self {
        RecFault::NoMemory
    }
}

impl From<AllocError> for RecFault {
    ghost from_gives = { λ _ e. e ≡ no_memory };

    fn from(_: AllocError) -> Self {
        RecFault::NoMemory
    }
}

impl<T: Drop> From<AllocFailed<T>> for RecFault {
    ghost from_gives = { λ _ e. e ≡ no_memory };

    fn from(_: AllocFailed<T>) -> Self {
        RecFault::NoMemory
    }
}
