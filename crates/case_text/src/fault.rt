use kap_base::NoMemory;
use kap_io::Failed;
use line_points::LineFault as PointFault;
use std::alloc::{AllocError, AllocFailed};
use std::error::Error;
use std::fmt;

/// Why a line can't be done.
#[derive(Clone, Copy, Debug, PartialEq, Eq)]
pub enum LineFault {
    /// It isn't of the form of its kind, or of no kind.
    NoForm,
    /// It has a backslash that begins no escape.
    NoEscape,
    /// It has a text that isn't UTF-8.
    NotUtf8,
    /// What it goes on from isn't there.
    NotReady,
    /// Memory ran out.
    NoMemory,
    /// The output failed, or a disk in memory where it may not.
    WriteFault,
}

impl fmt::Display for LineFault {
    fn fmt<W: fmt::Write>(&self, f: &mut fmt::Formatter<W>) -> fmt::Result {
        f.write_str(match self {
            LineFault::NoForm => "no line of a kind",
            LineFault::NoEscape => "no such escape",
            LineFault::NotUtf8 => "a text that isn't UTF-8",
            LineFault::NotReady => "not there",
            LineFault::NoMemory => "no memory",
            LineFault::WriteFault => "write fault",
        })
    }
}

impl Error for LineFault {}

impl From<NoMemory> for LineFault {
    fn from(_: NoMemory) -> Self {
        LineFault::NoMemory
    }
}

impl From<AllocError> for LineFault {
    fn from(_: AllocError) -> Self {
        LineFault::NoMemory
    }
}

impl<T: Drop> From<AllocFailed<T>> for LineFault {
    fn from(_: AllocFailed<T>) -> Self {
        LineFault::NoMemory
    }
}

impl From<Failed> for LineFault {
    fn from(_: Failed) -> Self {
        LineFault::WriteFault
    }
}

impl From<PointFault> for LineFault {
    fn from(fault: PointFault) -> Self {
        match fault {
            PointFault::NoMemory => LineFault::NoMemory,
            _ => LineFault::NoForm,
        }
    }
}
