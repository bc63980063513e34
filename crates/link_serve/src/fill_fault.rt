ghost use Rattle.std.specs.Prelude.{◌≡◌};
ghost use Rattle.link_serve.specs.declared.fill_fault.FillFault.TheVariants.{Failed as failed, NoMemory as no_memory};

use kap_base::NoMemory;
use kap_io::Failed;

/// Why no bytes could be brought in.
#[derive(Clone, Copy, Debug, PartialEq, Eq)]
pub(crate) enum FillFault {
    /// Reading failed.
    Failed,
    /// Memory ran out, and the bytes that were read are lost.
    NoMemory,
}

impl From<Failed> for FillFault {
    ghost from_gives = { λ _ e. e ≡ failed };

    fn from(_: Failed) -> Self {
        FillFault::Failed
    }
}

impl From<NoMemory> for FillFault {
    ghost from_gives = { λ _ e. e ≡ no_memory };

    fn from(_: NoMemory) -> Self {
        FillFault::NoMemory
    }
}
