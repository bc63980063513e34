//! What a lambda is evaluated at.

ghost use Rattle.std.specs.Prelude.{◌<◌, ◌^◌};

use kap_base::Point;

/// When a lambda is evaluated: after so many evaluations in the point's group, and at which point.
#[derive(Drop)]
pub(crate) struct Input<'a> {
    pub(crate) k: u64,
    pub(crate) point: &'a Point,
    ghost early: { k < 2 ^ 62 },
}
