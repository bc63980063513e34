use crate::disk::Part;
use kap_base::Bytes;

/// What a call asks of a file.
#[derive(Debug, Drop)]
pub enum DiskWork {
    /// Its length.
    Size,
    /// At most so many bytes from an offset on.
    Read { at: u64, count: u64 },
    /// A write of these bytes at an offset.
    Write { at: u64, piece: Bytes },
    /// This length.
    Cut { size: u64 },
    /// To be as it reads after a crash too.
    Sync,
}

/// A call of a disk in memory.
#[derive(Debug, Drop)]
pub struct DiskCall {
    /// The file.
    pub part: Part,
    /// What was asked.
    pub work: DiskWork,
    /// Whether it was done; one that failed did nothing.
    pub done: bool,
}
