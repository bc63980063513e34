//! How many points an epoch has.

ghost use Rattle.std.specs.Prelude.{◌≡◌, ◌<◌, ◌≤◌};
ghost use Rattle.net_run.specs.declared.TheConstants.{EPOCH_LIMIT};
ghost use Rattle.net_run.specs.Paces.{is_little, is_much, next_limit};

use crate::EPOCH_LIMIT;

/// How many effects of an epoch may stand in memory, before the next one has fewer points.
pub const EFFECT_LIMIT: usize = 8_192;

/// How many bytes of text they may have.
pub const TEXT_LIMIT: usize = 1 << 20;

/// Whether so many effects, with so many bytes of text, are more than may stand in memory.
fn is_much(effects: usize, bytes: usize) -> bool
    ensures { result ≡ is_much effects bytes }
{
    EFFECT_LIMIT < effects || TEXT_LIMIT < bytes
}

/// Whether twice as much may stand there.
fn is_little(effects: usize, bytes: usize) -> bool
    ensures { result ≡ is_little effects bytes }
{
    effects <= EFFECT_LIMIT / 2 && bytes <= TEXT_LIMIT / 2
}

/// How many points the next epoch may have, where one that could have `limit` had so many, with so many
/// effects and bytes of text.
fn next_limit(limit: usize, points: usize, effects: usize, bytes: usize) -> usize
    requires some { 0 < limit }
    requires most { limit ≤ EPOCH_LIMIT }
    ensures next { result ≡ next_limit limit points effects bytes }
    ensures some { 0 < result }
    ensures most { result ≤ EPOCH_LIMIT }
{
    if is_much(effects, bytes) {
        return (limit / 2).max(1);
    }
    if limit <= points && is_little(effects, bytes) {
        return (limit * 2).min(EPOCH_LIMIT);
    }
    limit
}

/// How many points the next epoch may have: 1 to `EPOCH_LIMIT`, and the fewer, the more the nodes do at each
/// point, since all that they do at those of an epoch stands in memory until it is written.
#[derive(Drop)]
pub struct Pace {
    /// How many points the next epoch may have.
    pub limit: usize,
    ghost some: { 0 < limit },
    ghost most: { limit ≤ EPOCH_LIMIT },
}

impl Pace {
    /// Before the first epoch, which has one point: nothing is known yet of what the nodes do.
    pub fn new() -> Pace
        ensures { result.limit ≡ 1 }
    {
        Pace { limit: 1 }
    }

    /// How many points the next epoch may have.
    pub fn limit(&self) -> usize
        ensures limit { result ≡ self.now.limit }
        ensures some { 0 < result }
        ensures most { result ≤ EPOCH_LIMIT }
    {
        self.limit
    }

    /// After an epoch of so many points, which had so many effects, with so many bytes of text.
    pub fn follow(&mut self, points: usize, effects: usize, bytes: usize)
        ensures { self.new.limit ≡ next_limit self.old.limit points effects bytes }
    {
        self.limit = next_limit(self.limit, points, effects, bytes);
    }
}
