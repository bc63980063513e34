//! Why an engine refuses.

ghost use Rattle.std.specs.Prelude.{◌≡◌};
ghost use Rattle.engine_store.specs.Faults.{compile_fault, run_fault, store_fault};
ghost use Rattle.engine_store.specs.declared.fault.EngineFault.TheVariants.{NoMemory as no_memory};

use engine_runs::RunFault;
use kap_base::NoMemory;
use kap_io::Part;
use tick_compile::ScriptFault;
use topic_store::StoreFault;

/// Why an engine refuses.
#[derive(Clone, Copy, Debug, PartialEq, Eq)]
pub enum EngineFault {
    /// A script that is to be that of a task is none, for this reason.
    Script(ScriptFault),
    /// No task has the id.
    NoTask,
    /// A task has the id.
    Exists,
    /// There are as many tasks as may be.
    TooManyTasks,
    /// The file isn't that of a store at this offset; or its record there defines a task whose script is
    /// none, or is the last snapshot, with states that aren't those of the lives that were open.
    NotStore {
        /// The file.
        part: Part,
        /// The offset: 0 where the file doesn't begin as it should, else that of the record's gate.
        offset: u64,
    },
    /// The disk failed: its count of faults rose in the call.
    DiskFault,
    /// Memory ran out.
    NoMemory,
}

impl From<NoMemory> for EngineFault {
    ghost from_gives = { λ _ f. f ≡ no_memory };

    fn from(_: NoMemory) -> Self {
        EngineFault::NoMemory
    }
}

impl From<StoreFault> for EngineFault {
    ghost from_gives = { λ e f. f ≡ store_fault e };

    fn from(fault: StoreFault) -> Self {
        match fault {
            StoreFault::NotStore { part, offset } => EngineFault::NotStore { part, offset },
            StoreFault::DiskFault => EngineFault::DiskFault,
            StoreFault::Long | StoreFault::NoMemory => EngineFault::NoMemory,
        }
    }
}

/// What a fault of the lives of a store is, whose log is this part and whose last snapshot has its gate at
/// this offset.
pub(crate) fn run_fault(part: Part, snap: u64, fault: RunFault) -> EngineFault
    ensures { result ≡ run_fault part snap fault }
{
    match fault {
        RunFault::Script(offset) => EngineFault::NotStore { part, offset },
        RunFault::States => EngineFault::NotStore { part, offset: snap },
        RunFault::NoMemory => EngineFault::NoMemory,
    }
}

/// What the fault of a script is for whoever wants it to be a task's.
pub fn compile_fault(fault: ScriptFault) -> EngineFault
    ensures { result ≡ compile_fault fault }
{
    match fault {
        ScriptFault::NoMemory => EngineFault::NoMemory,
        _ => EngineFault::Script(fault),
    }
}
