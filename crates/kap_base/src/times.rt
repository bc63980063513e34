//! Multiples of durations.

ghost use Rattle.std.specs.Prelude.{◌≡◌, pos, ◌≤ℤ◌, ◌<ℤ◌, ◌-ℤ◌, IsTrue};
ghost use Rattle.std.specs.Int.{int_rem_euclid};
ghost use Rattle.kap_base.specs.Points.{is_time};
ghost use Rattle.kap_base.specs.Times.{IsDuration, IsGreatestMultiple, IsInReach, round, trunc, year_one};

use crate::limits::TIME_LIMIT;

/// 0001-01-01T00:00:00Z, in nanoseconds from 1970-01-01T00:00:00Z on.
const YEAR_ONE: i128 = -62_135_596_800_000_000_000;

/// Whether the time lies within `TIME_LIMIT` before or behind 1970-01-01T00:00:00Z; in nanoseconds.
pub fn is_time(time: i64) -> bool
    ensures { result ≡ is_time time }
{
    time.unsigned_abs() <= TIME_LIMIT
}

/// How far the time lies behind the greatest multiple of the duration that isn't above it.
fn since_multiple(t: i64, d: i64) -> i64
    requires duration { IsDuration d }
    ensures value { result ≡ int_rem_euclid (t -ℤ year_one) d }
    ensures low { pos 0 ≤ℤ result }
    ensures high { result <ℤ d }
{
    let since = i128::from(t) - YEAR_ONE;
    since.rem_euclid(i128::from(d)) as i64
}

/// The greatest multiple of the duration `d` not above the time `t`, counted from 0001-01-01T00:00:00Z (as
/// Go's `Time.Truncate` counts); in nanoseconds. `t` lies from -9·10^18 to 9.2·10^18, and `d` from 1 to
/// 2·10^17.
pub fn trunc(t: i64, d: i64) -> i64
    requires reach { IsInReach t }
    requires duration { IsDuration d }
    ensures value { result ≡ trunc t d }
    ensures greatest { IsGreatestMultiple t d result }
{
    t - since_multiple(t, d)
}

/// The multiple of the duration `d` that is nearest to the time `t`, counted as by `trunc`; halves go up. In
/// nanoseconds. `t` is a time within `TIME_LIMIT`, and `d` lies from 1 to 2·10^17.
pub fn round(t: i64, d: i64) -> i64
    requires time { IsTrue (is_time t) }
    requires duration { IsDuration d }
    ensures { result ≡ round t d }
{
    trunc(t + d / 2, d)
}
