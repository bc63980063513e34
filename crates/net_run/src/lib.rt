//! Lives that run through a net, one epoch of points after the other, and that this gives what the nodes'
//! functions give of whole lists.
#![tactic(auto)]

ghost use Rattle.std.specs.Prelude.{◌≡◌, ◌^◌};
ghost use Rattle.net_run.specs.declared.moving.TheConstants.{FEW_POINTS};
ghost use Rattle.net_run.specs.declared.pace.TheConstants.{EFFECT_LIMIT, TEXT_LIMIT};

mod epochs;
mod joining;
mod moving;
mod numbering;
mod pace;
mod runs;
mod sends;
mod trail;

pub use epochs::run_epoch;
pub use joining::join_nets;
pub use moving::{FEW_POINTS, Way, Workers, few_points};
pub use numbering::NumberingNode;
pub use pace::{EFFECT_LIMIT, Pace, TEXT_LIMIT};
pub use runs::NetRun;
pub use sends::send_run;

/// How many points an epoch has at most: so few that they stay in a processor's cache from their reading to
/// their end, and so many that what each epoch costs besides, as the threads that are started for it, is
/// little a point.
pub const EPOCH_LIMIT: usize = 1_280;

/// The limits of an epoch as numbers: of points, of effects, and of bytes of their text; and how many points
/// are worth threads.
pub fn limits_are_numbers()
    ensures points { EPOCH_LIMIT ≡ 1280 }
    ensures effects { EFFECT_LIMIT ≡ 2 ^ 13 }
    ensures text { TEXT_LIMIT ≡ 2 ^ 20 }
    ensures few { FEW_POINTS ≡ 512 }
{}
