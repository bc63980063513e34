//! Why bytes are no states of a net.

ghost use Rattle.std.specs.Prelude.{◌≡◌};
ghost use Rattle.barrier_snapshot.specs.declared.fault.SnapFault.TheVariants.{NoMemory as no_memory};

use kap_base::NoMemory;
use std::alloc::AllocError;

/// Why no net was restored.
#[derive(Clone, Copy, Debug, PartialEq, Eq)]
pub enum SnapFault {
    /// The bytes aren't a capture of these lives: the byte string at this place isn't the state of
    /// its node, or more bytes stand here behind the last one; 0 where their number is another.
    At(u64),
    /// Memory ran out.
    NoMemory,
}

impl From<NoMemory> for SnapFault {
    ghost from_gives = { λ _ f. f ≡ no_memory };

    fn from(_: NoMemory) -> Self {
        SnapFault::NoMemory
    }
}

impl From<AllocError> for SnapFault {
    ghost from_gives = { λ _ f. f ≡ no_memory };

    fn from(_: AllocError) -> Self {
        SnapFault::NoMemory
    }
}
