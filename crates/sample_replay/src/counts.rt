//! What the text of effects counts.

ghost use Rattle.std.specs.Prelude.{◌≡◌, ◌+◌, ◌++◌, [], List, OnOk, IfOk, length};
ghost use Rattle.effect_text.specs.declared.names.TaskNames.{TaskNames};
ghost use Rattle.kap_base.specs.declared.items.Effect.{Effect};
ghost use Rattle.sample_replay.specs.Summaries.{HasCounted, is_point, logged};

use effect_text::{TaskNames, put_effects};
use kap_base::{Bytes, Effect, NoMemory, What};
use std::alloc::Global;
use topic_core::Topics;

/// How many lines tell of points, how many bytes all lines have, and the topics of the events, of all effects
/// so far.
#[derive(Drop)]
pub(crate) struct Counts {
    pub(crate) points: u64,
    pub(crate) bytes: u64,
    pub(crate) topics: Topics,
}

fn is_point(what: &What) -> bool
    ensures { result ≡ is_point what.now }
{
    match what {
        What::Line(_) => true,
        What::Event(_) => false,
    }
}

/// So many more, unless the sum passes 64 bits.
fn sum(count: u64, more: usize) -> Result<u64, NoMemory>
    ensures { IfOk result (λ sum. sum ≡ count + more) }
{
    match count.checked_add(more as u64) {
        Some(sum) => Ok(sum),
        None => Err(NoMemory),
    }
}

/// How many points are logged.
fn logged(effects: &[Effect]) -> usize
    ensures { result ≡ logged effects.now }
{
    let mut count = 0;
    'counting: for effect in effects {
        if is_point(&effect.what) {
            count += 1;
        }
    }
    count
}

impl Counts {
    /// Of no effects.
    pub(crate) fn new(alloc: Global) -> Counts
        ensures { (names : List TaskNames) → HasCounted names [] result.points result.bytes result.topics }
    {
        Counts {
            points: 0,
            bytes: 0,
            topics: Topics::new(alloc),
        }
    }
}

/// Counts the lines of effects that come behind those that were counted; the text is any from now on.
pub(crate) fn count(
    alloc: Global,
    names: &[TaskNames],
    counts: &mut Counts,
    effects: &[Effect],
    text: &mut Bytes,
) -> Result<(), NoMemory>
    ensures counted { OnOk result ((before : List Effect)
        → HasCounted names.now before counts.old.points counts.old.bytes counts.old.topics
        → HasCounted names.now (before ++ effects.now)
        counts.new.points counts.new.bytes counts.new.topics) }
    ensures bytes { OnOk result (counts.new.bytes ≡ counts.old.bytes + length text.new) }
{
    text.clear();
    put_effects(alloc, names, &mut counts.topics, effects, text)?;
    counts.points = sum(counts.points, logged(effects))?;
    counts.bytes = sum(counts.bytes, text.len())?;
    Ok(())
}
