ghost use Rattle.std.specs.Prelude.{◌≡◌};
ghost use Rattle.line_points.specs.declared.fault.LineFault.TheVariants.{NoMemory as no_memory};

use kap_base::NoMemory;
use std::alloc::{AllocError, AllocFailed};

/// Why a line holds no point: `Long` before `NotUtf8`, and behind these the first from left to right.
#[derive(Clone, Copy, Debug, PartialEq, Eq)]
pub enum LineFault {
    /// The measurement is empty, or the line is a comment outside Live mode.
    Measurement,
    /// A tag has no `=`, a further `=` without an escape in its value, an empty key or value, or a key that
    /// was given before.
    Tag,
    /// Behind measurement and tags stands nothing but spaces.
    NoField,
    /// A field is of no form of a field.
    Field,
    /// A field's value is a floating-point number, which this project leaves out.
    FloatField,
    /// A field's value is an unsigned integer, which this project leaves out.
    UnsignedField,
    /// What stands behind the fields is no time.
    Time,
    /// The time lies outside of plus or minus 9,000,000,000,000,000,000 nanoseconds.
    TimeRange,
    /// A line of a recording has no time.
    NoTime,
    /// The line has more than `LINE_LIMIT` bytes.
    Long,
    /// The line isn't UTF-8.
    NotUtf8,
    /// Memory ran out.
    NoMemory,
}

impl From<NoMemory> for LineFault {
    ghost from_gives = { λ _ e. e ≡ no_memory };

    fn from(_: NoMemory) -> Self {
        LineFault::NoMemory
    }
}

impl From<AllocError> for LineFault {
    ghost from_gives = { λ _ e. e ≡ no_memory };

    fn from(_: AllocError) -> Self {
        LineFault::NoMemory
    }
}

impl<T: Drop> From<AllocFailed<T>> for LineFault {
    ghost from_gives = { λ _ e. e ≡ no_memory };

    fn from(_: AllocFailed<T>) -> Self {
        LineFault::NoMemory
    }
}

/// The first faulty line of a body, numbered from 1 with blank and comment lines counted, and its fault.
#[derive(Clone, Copy, Debug, PartialEq, Eq)]
pub struct BodyFault {
    pub line: u64,
    pub fault: LineFault,
}
