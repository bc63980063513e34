//! Why a script's names stand for nothing.

ghost use Rattle.std.specs.Prelude.{◌≡◌};
ghost use Rattle.tick_vars.specs.declared.fault.VarFault.TheVariants.{NoMemory as no_memory};

use kap_base::NoMemory;
use std::alloc::{AllocError, AllocFailed};

/// The first fault of a script's names, from left to right, and its place, a byte offset in the script.
#[derive(Clone, Copy, Debug, PartialEq, Eq)]
pub enum VarFault {
    /// This name stands for nothing: no `var` before it has declared it.
    Unknown(u32),
    /// This word `var` stands before a name that is `stream`, `batch`, or declared before.
    Twice(u32),
    /// This name stands in a lambda, and for something else than an integer, a truth value, a string or a
    /// pattern.
    NotValue(u32),
    /// A node or a property stands behind this name, which is no node.
    NotNode(u32),
    /// This is `batch`. There are no batch tasks.
    Batch(u32),
    /// Memory ran out.
    NoMemory,
}

impl From<NoMemory> for VarFault {
    ghost from_gives = { λ _ fault. fault ≡ no_memory };

    fn from(_: NoMemory) -> VarFault {
        VarFault::NoMemory
    }
}

impl From<AllocError> for VarFault {
    ghost from_gives = { λ _ fault. fault ≡ no_memory };

    fn from(_: AllocError) -> VarFault {
        VarFault::NoMemory
    }
}

impl<T: Drop> From<AllocFailed<T>> for VarFault {
    ghost from_gives = { λ _ fault. fault ≡ no_memory };

    fn from(_: AllocFailed<T>) -> VarFault {
        VarFault::NoMemory
    }
}
