//! Why a sample recording isn't written.

ghost use Rattle.std.specs.Prelude.{◌≡◌};
ghost use Rattle.sample_replay.specs.declared.fault.SampleFault.TheVariants.{NoMemory as no_memory, WriteFault as write_fault};

use kap_base::NoMemory;
use kap_io::Failed;

/// Why a sample recording isn't written to its end.
#[derive(Clone, Copy, Debug, PartialEq, Eq)]
pub enum SampleFault {
    /// The output failed.
    WriteFault,
    /// An allocation failed.
    NoMemory,
}

impl From<NoMemory> for SampleFault {
    ghost from_gives = { λ _ f. f ≡ no_memory };

    fn from(_: NoMemory) -> Self {
        SampleFault::NoMemory
    }
}

impl From<Failed> for SampleFault {
    ghost from_gives = { λ _ f. f ≡ write_fault };

    fn from(_: Failed) -> Self {
        SampleFault::WriteFault
    }
}
