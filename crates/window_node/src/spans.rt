//! Durations, and times that lie one behind another.

ghost use Rattle.std.specs.Prelude.{◌≡◌, ◌==◌, ◌+ℤ◌, pos, if◌then◌else◌, Some, None};
ghost use Rattle.kap_base.specs.Times.{IsDuration};

use task_graph::{Period, Span};

/// The nanoseconds of a period.
pub(crate) fn nanos_of(period: &Period) -> i64
    ensures value { result ≡ pos period.now }
    ensures duration { IsDuration result }
{
    period.nanos() as i64
}

/// The time that lies a period behind another one, which may pass 64 bits; in nanoseconds.
pub(crate) fn time_behind(time: i64, period: &Period) -> i128
    ensures { result ≡ time +ℤ pos period.now }
{
    i128::from(time) + i128::from(period.nanos())
}

/// A span as a period, or None where it is 0. A window by time whose every is 0 slides; else it has edges.
pub fn period_of(span: &Span) -> Option<Period>
    ensures { result ≡ (if span.now == 0 then None else Some span.now) }
{
    Period::from_nanos(span.nanos() as i64)
}
