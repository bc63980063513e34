ghost use Rattle.std.specs.Prelude.{◌≡◌};
ghost use Rattle.msg_template.specs.declared.fault.TemplateFault.TheVariants.{NoMemory as no_memory};

use kap_base::NoMemory;
use std::alloc::{AllocError, AllocFailed};

/// Why a text is no template: its first fault from the left, with the place of the action's braces in the
/// text.
#[derive(Clone, Copy, Debug, PartialEq, Eq)]
pub enum TemplateFault {
    /// `{{` without `}}`, or an action of another form.
    Action(u32),
    /// A dot and a name that is not listed, or not allowed in an id.
    Field(u32),
    /// Memory ran out.
    NoMemory,
}

impl From<NoMemory> for TemplateFault {
    ghost from_gives = { λ _ e. e ≡ no_memory };

    fn from(_: NoMemory) -> Self {
        TemplateFault::NoMemory
    }
}

impl From<AllocError> for TemplateFault {
    ghost from_gives = { λ _ e. e ≡ no_memory };

    fn from(_: AllocError) -> Self {
        TemplateFault::NoMemory
    }
}

impl<T: Drop> From<AllocFailed<T>> for TemplateFault {
    ghost from_gives = { λ _ e. e ≡ no_memory };

    fn from(_: AllocFailed<T>) -> Self {
        TemplateFault::NoMemory
    }
}
