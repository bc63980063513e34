//! Why a list isn't written whole.

ghost use Rattle.std.specs.Prelude.{◌≡◌};
ghost use Rattle.store_lists.specs.Faults.{list_fault};
ghost use Rattle.store_lists.specs.declared.fault.ListFault.TheVariants.{NoMemory as no_memory, WriteFault as write_fault};

use kap_base::NoMemory;
use kap_io::{Failed, Part};
use topic_store::StoreFault;

/// Why a list isn't written whole.
#[derive(Clone, Copy, Debug, PartialEq, Eq)]
pub enum ListFault {
    /// A record that was read again is none of the store: this comes only on a disk that doesn't tell what a
    /// read gives.
    NotStore {
        /// The file.
        part: Part,
        /// The offset of the record's gate.
        offset: u64,
    },
    /// The disk failed: its count of faults rose in the call.
    DiskFault,
    /// The output failed: its count of faults rose in the call.
    WriteFault,
    /// Memory ran out.
    NoMemory,
}

impl From<NoMemory> for ListFault {
    ghost from_gives = { λ _ f. f ≡ no_memory };

    fn from(_: NoMemory) -> Self {
        ListFault::NoMemory
    }
}

impl From<Failed> for ListFault {
    ghost from_gives = { λ _ f. f ≡ write_fault };

    fn from(_: Failed) -> Self {
        ListFault::WriteFault
    }
}

impl From<StoreFault> for ListFault {
    ghost from_gives = { λ e f. f ≡ list_fault e };

    fn from(fault: StoreFault) -> Self {
        match fault {
            StoreFault::NotStore { part, offset } => ListFault::NotStore { part, offset },
            StoreFault::DiskFault => ListFault::DiskFault,
            // No call that reads a store answers `Long`.
            StoreFault::Long | StoreFault::NoMemory => ListFault::NoMemory,
        }
    }
}
