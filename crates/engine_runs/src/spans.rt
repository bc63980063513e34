//! How many points come before a life begins or ends.

ghost use Rattle.std.specs.Prelude.{◌≡◌, ◌+◌, ◌<◌, ◌≤◌, Contains, IsFalse, IsTrue, MatchOption, Some, map, slice_get};
ghost use Rattle.std.specs.List.{AllByRecursion as Each};
ghost use Rattle.flow_core.specs.Nets.{numbers_of};
ghost use Rattle.store_records.specs.declared.task.Life.{Life};
ghost use Rattle.engine_runs.specs.Spans.{HasEndedBy, IsOnward, last_of};

use flow_core::Numbered;
use flow_life::Life as NetLife;
use node_core::Node;
use store_records::Life;

/// The last stamp of the life with this number.
fn last_of(lives: &[Life], number: u32) -> Option<u64>
    ensures { result ≡ last_of lives.now number }
{
    let place = number.saturating_sub(1);
    match lives.get(place as usize) {
        Some(life) => life.last,
        None => None,
    }
}

/// Whether a last stamp is that of a life which has ended behind so many points.
pub(crate) fn has_ended_by(last: Option<u64>, points: u64) -> bool
    ensures yes { IsTrue result → HasEndedBy points last }
    ensures no { IsFalse result → IsOnward (points + 1) last }
{
    match last {
        Some(last) => last <= points,
        None => false,
    }
}

/// The number of the first of the lives in a net that has ended behind so many points; `None` exactly where
/// none has.
pub(crate) fn ended_among<N: Node>(
    net: &[Numbered<NetLife<N>>],
    lives: &[Life],
    points: u64,
) -> Option<u32>
    ensures { MatchOption result
        (Each (IsOnward (points + 1)) (map (last_of lives.now) (numbers_of net.now)))
        (λ number. Contains (numbers_of net.now) number
        × HasEndedBy points (last_of lives.now number)) }
{
    let Some((first, others)) = net.split_first() else {
        return None;
    };
    if has_ended_by(last_of(lives, first.number), points) {
        return Some(first.number);
    }
    ended_among(others, lives, points)
}

/// So many points, or fewer, where a life has this last stamp.
fn up_to_last(points: u64, last: Option<u64>, most: usize) -> usize
    ensures most { result ≤ most }
    ensures some { 0 < most → 0 < result }
    ensures onward { IsOnward (points + 1) last → IsOnward (points + result) last }
{
    match last {
        Some(last) => match usize::try_from(last.saturating_sub(points).max(1)) {
            Ok(left) => left.min(most),
            Err(_) => most,
        },
        None => most,
    }
}

/// So many points, or fewer, before one of the lives in a net ends.
fn up_to_lasts<N: Node>(
    net: &[Numbered<NetLife<N>>],
    lives: &[Life],
    points: u64,
    most: usize,
) -> usize
    ensures most { result ≤ most }
    ensures some { 0 < most → 0 < result }
    ensures onward { Each (IsOnward (points + 1)) (map (last_of lives.now) (numbers_of net.now))
        → Each (IsOnward (points + result)) (map (last_of lives.now) (numbers_of net.now)) }
{
    let Some((first, others)) = net.split_first() else {
        return most;
    };
    let fewer = up_to_last(points, last_of(lives, first.number), most);
    up_to_lasts(others, lives, points, fewer)
}

/// So many points, or fewer, before the life behind the first so many begins.
fn up_to_first(lives: &[Life], begun: usize, points: u64, most: usize) -> usize
    ensures most { result ≤ most }
    ensures some { 0 < most → 0 < result }
    ensures first { (life : Life) → slice_get lives.now begun ≡ Some life
        → points + 1 < life.first → points + result < life.first }
    ensures soon { (life : Life) → slice_get lives.now begun ≡ Some life
        → life.first ≤ points + 1 → result ≤ 1 }
{
    let Some(life) = lives.get(begun) else {
        return most;
    };
    let before = life.first.saturating_sub(1);
    match usize::try_from(before.saturating_sub(points).max(1)) {
        Ok(left) => left.min(most),
        Err(_) => most,
    }
}

/// How many points, at most so many, come before one of the lives in a net ends, or the life behind the first
/// so many begins.
pub(crate) fn points_before<N: Node>(
    net: &[Numbered<NetLife<N>>],
    lives: &[Life],
    begun: usize,
    points: u64,
    most: usize,
) -> usize
    ensures most { result ≤ most }
    ensures some { 0 < most → 0 < result }
    ensures onward { Each (IsOnward (points + 1)) (map (last_of lives.now) (numbers_of net.now))
        → Each (IsOnward (points + result)) (map (last_of lives.now) (numbers_of net.now)) }
    ensures first { (life : Life) → slice_get lives.now begun ≡ Some life
        → points + 1 < life.first → points + result < life.first }
    ensures soon { (life : Life) → slice_get lives.now begun ≡ Some life
        → life.first ≤ points + 1 → result ≤ 1 }
{
    let fewer = up_to_first(lives, begun, points, most);
    up_to_lasts(net, lives, points, fewer)
}
