//! Why a lambda has no value at a point.

ghost use Rattle.std.specs.Prelude.{◌≡◌};
ghost use Rattle.lambda_fns.specs.declared.fault.EvalFault.TheVariants.{NoMemory as no_memory};

use kap_base::NoMemory;
use std::alloc::AllocError;

/// Why a lambda has no value at a point (Kapacitor 1.6 TICKscript language reference: lambda expressions).
/// Each number is a byte offset in the script.
#[derive(Clone, Copy, Debug, PartialEq, Eq)]
pub enum EvalFault {
    /// The point has neither a field nor a tag of this name.
    Missing(u32),
    /// An operator or a function doesn't take a value of this type, or so many values.
    Kind(u32),
    /// A division by 0.
    ZeroDivisor(u32),
    /// A value that the function doesn't take, or one that it can't give: a text that is no number or truth
    /// value, a number that is no truth value, places that aren't in the text, a text above 65,536 bytes.
    Range(u32),
    /// Memory ran out.
    NoMemory,
}

impl From<AllocError> for EvalFault {
    ghost from_gives = { λ _ e. e ≡ no_memory };

    fn from(_: AllocError) -> Self {
        EvalFault::NoMemory
    }
}

impl From<NoMemory> for EvalFault {
    ghost from_gives = { λ _ e. e ≡ no_memory };

    fn from(_: NoMemory) -> Self {
        EvalFault::NoMemory
    }
}
