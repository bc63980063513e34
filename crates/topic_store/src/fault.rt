//! Why a store refuses.

ghost use Rattle.std.specs.Prelude.{◌≡◌};
ghost use Rattle.topic_store.specs.Faults.{fault_at, fault_in};
ghost use Rattle.topic_store.specs.declared.fault.StoreFault.TheVariants.{NoMemory as no_memory, DiskFault as disk_fault};

use gate_log::{LogFault, LogReader};
use kap_base::NoMemory;
use kap_io::{Failed, Part};
use std::alloc::{AllocError, AllocFailed};

/// Why a store refuses.
#[derive(Clone, Copy, Debug, PartialEq, Eq)]
pub enum StoreFault {
    /// The file isn't that of a store at this offset.
    NotStore {
        /// The file.
        part: Part,
        /// The offset: 0 where the file doesn't begin as it should, else that of the gate of the record that
        /// isn't one, or may not follow.
        offset: u64,
    },
    /// The disk failed: its count of faults rose in the call.
    DiskFault,
    /// The record's body has more than `gate_log::BODY_LIMIT` bytes.
    Long,
    /// Memory ran out.
    NoMemory,
}

impl From<NoMemory> for StoreFault {
    ghost from_gives = { λ _ e. e ≡ no_memory };

    fn from(_: NoMemory) -> Self {
        StoreFault::NoMemory
    }
}

impl From<Failed> for StoreFault {
    ghost from_gives = { λ _ e. e ≡ disk_fault };

    fn from(_: Failed) -> Self {
        StoreFault::DiskFault
    }
}

impl From<AllocError> for StoreFault {
    ghost from_gives = { λ _ e. e ≡ no_memory };

    fn from(_: AllocError) -> Self {
        StoreFault::NoMemory
    }
}

/// What a fault of a log or a head in this file is for the store.
pub(crate) fn fault_in(part: Part, fault: LogFault) -> StoreFault
    ensures { result ≡ fault_in part fault }
{
    match fault {
        LogFault::Header => StoreFault::NotStore { part, offset: 0 },
        LogFault::Torn(offset) => StoreFault::NotStore { part, offset },
        LogFault::DiskFault => StoreFault::DiskFault,
        LogFault::Long => StoreFault::Long,
        LogFault::NoMemory => StoreFault::NoMemory,
    }
}

/// What a fault of a log's reader is for the store.
pub(crate) fn fault_at(reader: &LogReader, fault: LogFault) -> StoreFault
    ensures { result ≡ fault_at reader.now fault }
{
    let part = reader.part();
    match fault {
        LogFault::Header => StoreFault::NotStore { part, offset: 0 },
        LogFault::Torn(offset) => StoreFault::NotStore { part, offset },
        LogFault::DiskFault => StoreFault::DiskFault,
        LogFault::Long => StoreFault::NotStore {
            part,
            offset: reader.gate(),
        },
        LogFault::NoMemory => StoreFault::NoMemory,
    }
}
