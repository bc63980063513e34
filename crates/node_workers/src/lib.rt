//! A net's moves, made by threads beside each other.
#![tactic(auto)]

ghost use Rattle.std.specs.Prelude.{◌≡◌, ◌^◌};

mod epochs;
mod sharing;
mod turns;

pub use epochs::work_to_rest;

/// How many workers there are at most.
pub const WORKER_LIMIT: u32 = 64;

/// How many turns a worker has on its cells, or on those of each of its lives, at most. The caller makes the
/// moves that are left.
pub const TURN_LIMIT: u64 = 1_000_000;

/// After so many turns in a row that moved nothing a worker ends that has a part of a life. One that has a
/// whole life ends after one, and after one that left nothing to do. Each turn that moved nothing yields,
/// which on a busy machine costs a slice of time, and the caller makes the moves that are left.
pub const IDLE_LIMIT: u32 = 4;

/// How often a cell puts and takes in one turn at most.
pub const MOVE_LIMIT: u32 = 64;

/// The limits as numbers: workers, turns, turns that moved nothing, and moves of a turn.
pub fn limits_are_numbers()
    ensures workers { WORKER_LIMIT ≡ 64 }
    ensures turns { TURN_LIMIT ≡ 10 ^ 6 }
    ensures idle { IDLE_LIMIT ≡ 4 }
    ensures moves { MOVE_LIMIT ≡ 64 }
{}
