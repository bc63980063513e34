//! Why a node is none.

ghost use Rattle.std.specs.Prelude.{◌≡◌};
ghost use Rattle.tick_compile.specs.declared.node_fault.NodeFault.TheVariants.{NoMemory as no_memory};

use kap_base::NoMemory;
use msg_template::TemplateFault;
use std::alloc::{AllocError, AllocFailed};

/// The first fault of a node that is none: of its kind, its arguments or its properties. Each number is a
/// place in the script.
#[derive(Clone, Copy)]
pub(crate) enum NodeFault {
    NoKind(u32),
    Property(u32),
    Argument(u32),
    Handler(u32),
    Template(u32, TemplateFault),
    NoMemory,
}

impl From<NoMemory> for NodeFault {
    ghost from_gives = { λ _ f. f ≡ no_memory };

    fn from(_: NoMemory) -> Self {
        NodeFault::NoMemory
    }
}

impl From<AllocError> for NodeFault {
    ghost from_gives = { λ _ f. f ≡ no_memory };

    fn from(_: AllocError) -> Self {
        NodeFault::NoMemory
    }
}

impl<T: Drop> From<AllocFailed<T>> for NodeFault {
    ghost from_gives = { λ _ f. f ≡ no_memory };

    fn from(_: AllocFailed<T>) -> Self {
        NodeFault::NoMemory
    }
}
