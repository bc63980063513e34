//! Limits of what every crate speaks of.

ghost use Rattle.std.specs.Prelude.{◌≡◌, ◌^◌, ◌*◌};

/// How far a time may lie before or behind 1970-01-01T00:00:00Z, in nanoseconds.
pub const TIME_LIMIT: u64 = 9_000_000_000_000_000_000;

/// How many bytes the id of a task may have.
pub const ID_LIMIT: usize = 64;

/// How many bytes a script may have.
pub const SCRIPT_LIMIT: usize = 65_536;

/// How many tasks may run side by side.
pub const TASK_LIMIT: usize = 64;

/// The limits as numbers: nanoseconds, bytes, bytes and tasks.
pub fn limits_are_numbers()
    ensures times { TIME_LIMIT ≡ 9 * 10 ^ 18 }
    ensures ids { ID_LIMIT ≡ 64 }
    ensures scripts { SCRIPT_LIMIT ≡ 2 ^ 16 }
    ensures tasks { TASK_LIMIT ≡ 64 }
{}
