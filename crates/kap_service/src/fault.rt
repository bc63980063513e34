//! Why an engine can't be read or made again.

ghost use Rattle.std.specs.Prelude.{◌≡◌};
ghost use Rattle.kap_service.specs.declared.fault.ShareFault.TheVariants.{NoMemory as no_memory};

use kap_base::NoMemory;
use kap_io::Part;
use std::alloc::{AllocError, AllocFailed};

/// Why an engine can't be read or made again.
#[derive(Clone, Copy, Debug, PartialEq, Eq)]
pub enum ShareFault {
    /// The file isn't that of a store at this offset, or a pattern of a script that is stored there was
    /// refused.
    NotStore {
        /// The file.
        part: Part,
        /// The offset.
        offset: u64,
    },
    /// The disk failed.
    DiskFault,
    /// Memory ran out.
    NoMemory,
}

impl From<NoMemory> for ShareFault {
    ghost from_gives = { λ _ e. e ≡ no_memory };

    fn from(_: NoMemory) -> Self {
        ShareFault::NoMemory
    }
}

impl From<AllocError> for ShareFault {
    ghost from_gives = { λ _ e. e ≡ no_memory };

    fn from(_: AllocError) -> Self {
        ShareFault::NoMemory
    }
}

impl<T: Drop> From<AllocFailed<T>> for ShareFault {
    ghost from_gives = { λ _ e. e ≡ no_memory };

    fn from(_: AllocFailed<T>) -> Self {
        ShareFault::NoMemory
    }
}
