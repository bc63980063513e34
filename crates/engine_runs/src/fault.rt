//! Why lives don't run.

ghost use Rattle.std.specs.Prelude.{◌≡◌};
ghost use Rattle.engine_runs.specs.Faults.{fault_at};
ghost use Rattle.engine_runs.specs.declared.fault.RunFault.TheVariants.{NoMemory as no_memory};

use kap_base::NoMemory;
use std::alloc::{AllocError, AllocFailed};
use tick_compile::ScriptFault;

/// Why the lives of a store don't run.
#[derive(Clone, Copy, Debug, PartialEq, Eq)]
pub enum RunFault {
    /// A script is none of a task: that of the record which defined it, whose gate has this offset.
    Script(u64),
    /// The states of the snapshot aren't those of the nodes of these lives.
    States,
    /// Memory ran out.
    NoMemory,
}

impl From<NoMemory> for RunFault {
    ghost from_gives = { λ _ f. f ≡ no_memory };

    fn from(_: NoMemory) -> Self {
        RunFault::NoMemory
    }
}

impl From<AllocError> for RunFault {
    ghost from_gives = { λ _ f. f ≡ no_memory };

    fn from(_: AllocError) -> Self {
        RunFault::NoMemory
    }
}

impl<T: Drop> From<AllocFailed<T>> for RunFault {
    ghost from_gives = { λ _ f. f ≡ no_memory };

    fn from(_: AllocFailed<T>) -> Self {
        RunFault::NoMemory
    }
}

/// A script that has this fault, and that was defined by the record whose gate has this offset, is none of a
/// task, unless memory ran out.
pub fn fault_at(at: u64, fault: &ScriptFault) -> RunFault
    ensures { result ≡ fault_at at fault.now }
{
    match fault {
        ScriptFault::NoMemory => RunFault::NoMemory,
        _ => RunFault::Script(at),
    }
}
