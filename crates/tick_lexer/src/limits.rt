//! How long a duration may be.

ghost use Rattle.std.specs.Prelude.{◌≡◌, ◌^◌, ◌*◌};

/// The longest duration, in nanoseconds.
pub const DURATION_LIMIT: u128 = 200_000_000_000_000_000;

/// The limit as a number of nanoseconds.
pub fn limit_is_a_number()
    ensures { DURATION_LIMIT ≡ 2 * 10 ^ 17 }
{}
