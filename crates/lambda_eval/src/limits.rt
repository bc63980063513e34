ghost use Rattle.std.specs.Prelude.{◌≡◌, ◌^◌};

/// How often a lambda can be evaluated in a group. One more is want of memory.
pub const EVALUATION_LIMIT: u64 = 1 << 62;

/// The limit as a number.
pub fn limit_is_a_number()
    ensures { EVALUATION_LIMIT ≡ 2 ^ 62 }
{}
