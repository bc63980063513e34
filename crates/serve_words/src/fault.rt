//! How a service ends that wasn't just closed.

ghost use Rattle.std.specs.Prelude.{◌≡◌};

use kap_io::Part;
use thiserror::Error;

/// Why a service didn't begin, or why it ended. What it prints is said behind `kapd: ` on standard error.
#[derive(Clone, Copy, Debug, PartialEq, Eq, Error)]
pub enum ServeFault {
    /// The words aren't those of a service.
    #[error("usage")]
    Usage,
    /// The disk holds no store: this file isn't one of a store at this offset.
    #[error("not a store: {} at {offset}", name_of(*part))]
    NotStore {
        /// The file.
        part: Part,
        /// The offset.
        offset: u64,
    },
    /// Memory ran out.
    #[error("no memory")]
    NoMemory,
    /// The disk failed.
    #[error("disk fault")]
    DiskFault,
    /// The address can't be listened at, or no more links could be taken there.
    #[error("door fault")]
    DoorFault,
    /// The system didn't tell which of many links may go on.
    #[error("ready fault")]
    ReadyFault,
}

/// The name of a file of a store.
fn name_of(part: Part) -> &'static str {
    match part {
        Part::Head => "head",
        Part::Left => "left",
        Part::Right => "right",
    }
}

impl ServeFault {
    ghost use Rattle.serve_words.specs.Faults.{number_of};

    /// The number with which the process ends (this project).
    pub fn number(&self) -> u8
        ensures { result ≡ number_of self.now }
    {
        match self {
            ServeFault::Usage => 2,
            ServeFault::NotStore { .. } => 6,
            ServeFault::NoMemory => 70,
            ServeFault::DiskFault => 73,
            ServeFault::DoorFault => 74,
            ServeFault::ReadyFault => 75,
        }
    }
}
