ghost use Rattle.std.specs.Prelude.{◌≡◌};
ghost use Rattle.line_points.specs.Line.{is_live, nanoseconds, unit_of, missing_time};

use crate::fault::LineFault;

/// What a time of a line counts: nanoseconds, microseconds, milliseconds, seconds, minutes or hours.
#[derive(Clone, Copy, Debug, PartialEq, Eq)]
pub enum Unit {
    Ns,
    Us,
    Ms,
    S,
    M,
    H,
}

impl Unit {
    pub(crate) fn nanoseconds(self) -> u64
        ensures { result ≡ nanoseconds self }
    {
        match self {
            Unit::Ns => 1,
            Unit::Us => 1_000,
            Unit::Ms => 1_000_000,
            Unit::S => 1_000_000_000,
            Unit::M => 60_000_000_000,
            Unit::H => 3_600_000_000_000,
        }
    }
}

/// How lines are read.
#[derive(Clone, Copy, Debug, PartialEq, Eq)]
pub enum Mode {
    /// Lines as clients write them: a time counts the unit, a missing time is `now` (nanoseconds from
    /// 1970-01-01T00:00:00Z on), and a line of nothing but spaces or of a comment holds no point.
    Live { unit: Unit, now: i64 },
    /// Lines of a recording: each holds a point, with a time in nanoseconds.
    Recording,
}

impl Mode {
    pub(crate) fn is_live(&self) -> bool
        ensures { result ≡ is_live self.now }
    {
        matches!(self, Mode::Live { .. })
    }

    pub(crate) fn unit(&self) -> Unit
        ensures { result ≡ unit_of self.now }
    {
        match self {
            Mode::Live { unit, .. } => *unit,
            Mode::Recording => Unit::Ns,
        }
    }

    pub(crate) fn missing_time(&self) -> Result<i64, LineFault>
        ensures { result ≡ missing_time self.now }
    {
        match self {
            Mode::Live { now, .. } => Ok(*now),
            Mode::Recording => Err(LineFault::NoTime),
        }
    }
}
