//! How a command ended.

ghost use Rattle.std.specs.Prelude.{◌≡◌};
ghost use Rattle.kap_server.specs.Statuses.{status_of, status_of_body, status_of_engine, status_of_list, status_of_script, status_of_store};

use kap_base::NoMemory;
use kap_engine::EngineFault;
use kap_io::Part;
use line_points::{BodyFault, LineFault};
use recording_file::RecFault;
use store_lists::ListFault;
use tick_compile::ScriptFault;
use topic_store::StoreFault;

/// How a command ended.
#[derive(Clone, Copy, Debug, PartialEq, Eq)]
pub enum Status {
    /// All was done, and the input was read to its end, where the command reads it.
    Ok,
    /// The words aren't those of a command.
    Usage,
    /// A script isn't one of a task: its first fault.
    Script { fault: ScriptFault },
    /// This line of the recording, or of the lines that are to be written, numbered from 1, is the first that
    /// is no database, no policy or no line of the line protocol.
    Line { line: u64, fault: LineFault },
    /// The recording ends inside a group of three lines: this line is missing.
    Truncated { line: u64 },
    /// The disk holds no store: this file isn't one of a store at this offset, which is 0 where the file
    /// doesn't begin as it should, else that of the gate of the first record that isn't one, or may not stand
    /// there; else that of the first record whose script is none of a task, or of the last snapshot, whose
    /// states aren't those of tasks.
    NotStore { part: Part, offset: u64 },
    /// No task of the store has the id.
    NoTask,
    /// A task's id was given before, or is that of a task of the store; or a store is to be made, and one is
    /// there.
    Exists,
    /// There are more than 64 tasks, or another one is to be defined in a store of 64.
    TooManyTasks,
    /// The recording has more than 1,073,741,824 bytes, a script more than 65,536, or the lines that are to be
    /// written more than 8,388,608.
    TooLong,
    /// Memory ran out.
    NoMemory,
    /// The input failed.
    ReadFault,
    /// The output failed.
    WriteFault,
    /// The disk failed.
    DiskFault,
}

impl Status {
    ghost use Rattle.kap_server.specs.Statuses.{number_of};

    /// The number with which the process ends (this project).
    pub fn number(&self) -> u8
        ensures { result ≡ number_of self.now }
    {
        match self {
            Status::Ok => 0,
            Status::Usage => 2,
            Status::Script { .. } => 3,
            Status::Line { .. } => 4,
            Status::Truncated { .. } => 5,
            Status::NotStore { .. } => 6,
            Status::NoTask => 7,
            Status::Exists => 8,
            Status::TooManyTasks => 9,
            Status::TooLong => 10,
            Status::NoMemory => 70,
            Status::ReadFault => 71,
            Status::WriteFault => 72,
            Status::DiskFault => 73,
        }
    }
}

impl From<RecFault> for Status {
    ghost from_gives = { λ f s. s ≡ status_of f };

    fn from(fault: RecFault) -> Self {
        match fault {
            RecFault::Line { line, fault } => Status::Line { line, fault },
            RecFault::Truncated { line } => Status::Truncated { line },
            RecFault::Long => Status::TooLong,
            RecFault::ReadFault => Status::ReadFault,
            RecFault::NoMemory => Status::NoMemory,
        }
    }
}

impl From<ScriptFault> for Status {
    ghost from_gives = { λ f s. s ≡ status_of_script f };

    fn from(fault: ScriptFault) -> Self {
        match fault {
            ScriptFault::NoMemory => Status::NoMemory,
            _ => Status::Script { fault },
        }
    }
}

impl From<BodyFault> for Status {
    ghost from_gives = { λ f s. s ≡ status_of_body f };

    fn from(fault: BodyFault) -> Self {
        let BodyFault { line, fault } = fault;
        match fault {
            LineFault::NoMemory => Status::NoMemory,
            _ => Status::Line { line, fault },
        }
    }
}

impl From<StoreFault> for Status {
    ghost from_gives = { λ f s. s ≡ status_of_store f };

    fn from(fault: StoreFault) -> Self {
        match fault {
            StoreFault::NotStore { part, offset } => Status::NotStore { part, offset },
            StoreFault::DiskFault => Status::DiskFault,
            StoreFault::Long => Status::TooLong,
            StoreFault::NoMemory => Status::NoMemory,
        }
    }
}

impl From<EngineFault> for Status {
    ghost from_gives = { λ f s. s ≡ status_of_engine f };

    fn from(fault: EngineFault) -> Self {
        match fault {
            EngineFault::Script(fault) => Status::from(fault),
            EngineFault::NoTask => Status::NoTask,
            EngineFault::Exists => Status::Exists,
            EngineFault::TooManyTasks => Status::TooManyTasks,
            EngineFault::NotStore { part, offset } => Status::NotStore { part, offset },
            EngineFault::DiskFault => Status::DiskFault,
            EngineFault::NoMemory => Status::NoMemory,
        }
    }
}

impl From<ListFault> for Status {
    ghost from_gives = { λ f s. s ≡ status_of_list f };

    fn from(fault: ListFault) -> Self {
        match fault {
            ListFault::NotStore { part, offset } => Status::NotStore { part, offset },
            ListFault::DiskFault => Status::DiskFault,
            ListFault::WriteFault => Status::WriteFault,
            ListFault::NoMemory => Status::NoMemory,
        }
    }
}

impl From<NoMemory> for Status {
    ghost use Rattle.kap_server.specs.declared.status.Status.{Status};

    ghost from_gives = { λ f s. s ≡ Status.NoMemory };

    fn from(fault: NoMemory) -> Self {
        let NoMemory = fault;
        Status::NoMemory
    }
}
