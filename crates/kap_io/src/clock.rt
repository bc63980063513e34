ghost use Rattle.std.specs.Prelude.{◌≡◌, ◌≤ℤ◌, pos, IsTrue};
ghost use Rattle.kap_base.specs.Points.{is_time};

use kap_base::TIME_LIMIT;
use std::marker::Model;
use std::time;
use std::time::{Duration, SystemTime, UNIX_EPOCH};

/// What tells the time.
pub trait Clock {
    /// The time of now, in nanoseconds from 1970-01-01T00:00:00Z on, within plus or minus
    /// 9,000,000,000,000,000,000.
    fn now(&self) -> i64
        ensures { IsTrue (is_time result) };
}

/// A clock that stands at one time, in nanoseconds from 1970-01-01T00:00:00Z on, within plus or minus
/// 9,000,000,000,000,000,000.
#[derive(Clone, Copy, Debug, PartialEq, Eq)]
pub struct FixedClock(pub i64);

impl Model for FixedClock {
    ghost use Rattle.std.specs.Prelude.{ℤ, IsTrue};
    ghost use Rattle.kap_base.specs.Points.{is_time};

    ghost Value = { ℤ };

    ghost view = { λ c. c.0 };

    ghost inverse = { λ time. record { 0 = time } };

    ghost invariant = { λ c. IsTrue (is_time c.0) };
}

impl Clock for FixedClock {
    fn now(&self) -> i64
        ensures within { IsTrue (is_time result) }
        ensures time { result ≡ self.now }
    {
        self.0
    }
}

/// The clock of the system. A time outside the range is told as the end of the range that is next to it;
/// where the clock can't be read, it tells 1970-01-01T00:00:00Z.
#[derive(Drop)]
pub struct RealClock<C: time::Clock + Drop> {
    system: C,
}

impl<C: time::Clock + Drop> RealClock<C> {
    /// The clock of this system.
    pub fn new(system: C) -> Self {
        RealClock { system }
    }
}

/// So many nanoseconds, or the most that a time may lie from 1970-01-01T00:00:00Z.
fn within_limit(distance: Duration) -> i64
    ensures least { pos 0 ≤ℤ result }
    ensures most { result ≤ℤ pos TIME_LIMIT }
{
    distance.as_nanos().min(u128::from(TIME_LIMIT)) as i64
}

impl<C: time::Clock + Drop> Clock for RealClock<C> {
    fn now(&self) -> i64 {
        match SystemTime::now(&self.system) {
            Ok(now) => match now.duration_since(UNIX_EPOCH) {
                Ok(since) => within_limit(since),
                Err(before) => -within_limit(before.duration()),
            },
            Err(_) => 0,
        }
    }
}
