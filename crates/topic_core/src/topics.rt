//! The transitions of events that come one after the other.

ghost use Rattle.std.specs.Prelude.{◌≡◌, ◌∷◌, ◌++◌, [], false, List, IfOk, OnErr, OnOk};
ghost use Rattle.std.specs.FinMap as map;
ghost use Rattle.std.specs.Option.{option_to_list};
ghost use Rattle.kap_base.specs.Events.{EventValue};
ghost use Rattle.kap_base.specs.Levels.{same_level};
ghost use Rattle.topic_core.specs.Topics.{StandsFor, Trans, answer, event_of, kept_after, level_before};
ghost use Rattle.topic_core.specs.Topics.{topic_level, transition, with_transition};

use crate::levels::Levels;
use crate::transition::Transition;
use kap_base::{Duplicate, Event, Level, NoMemory, Text};
use std::alloc::Global;
use std::marker::Model;

/// What is kept of the events so far: how many transitions they made, and the last level of each topic and id
/// that had one.
#[derive(Debug, Drop)]
pub struct Topics {
    count: u64,
    levels: Levels,
}

impl Model for Topics {
    ghost use Rattle.std.specs.Coded.{codes};
    ghost use Rattle.kap_base.specs.Maps.{key_map_code};
    ghost use Rattle.topic_core.specs.Topics.{TopicsValue};

    ghost Value = { TopicsValue };

    ghost coded = { Prim.hlevel (codes, key_map_code) };

    ghost view = { λ t. record { count = t.count; levels = t.levels } };

    ghost inverse = { λ t. record { count = t.count; levels = t.levels } };
}

/// The transition of this event.
fn transition_of(
    alloc: Global,
    number: u64,
    old_level: Level,
    event: &Event,
) -> Result<Transition, NoMemory>
    ensures { IfOk result (λ t. t ≡ transition number old_level event.now) }
{
    Ok(Transition {
        number,
        topic: event.topic.copy(alloc)?,
        id: event.id.copy(alloc)?,
        old_level,
        new_level: event.level,
        time: event.time,
        message: event.message.copy(alloc)?,
    })
}

impl Topics {
    /// The topics before any event.
    pub fn new(alloc: Global) -> Topics
        ensures { StandsFor [] result }
    {
        Topics {
            count: 0,
            levels: Levels::new(alloc),
        }
    }

    /// Takes the next event. It is a transition exactly where its level differs from the last one of its
    /// topic and id, OK at first. After `NoMemory` nothing has changed.
    pub fn accept(&mut self, alloc: Global, event: &Event) -> Result<Option<Transition>, NoMemory>
        ensures answer { IfOk result (λ t. t ≡ answer self.old event.now) }
        ensures kept { OnOk result (self.new ≡ kept_after self.old event.now) }
        ensures err { OnErr result (self.new ≡ self.old) }
        // Over any list of events the answers, one after the other, are the transitions of the list.
        ensures stands { (events : List EventValue) → StandsFor events self.old →
            OnOk result (StandsFor (events ++ event.now ∷ []) self.new) }
        ensures all { (events : List EventValue) → StandsFor events self.old → IfOk result (λ t.
            Trans (events ++ event.now ∷ []) ≡ Trans events ++ option_to_list t) }
    {
        self.take(alloc, event)
    }

    fn take(&mut self, alloc: Global, event: &Event) -> Result<Option<Transition>, NoMemory>
        ensures answer { IfOk result (λ t. t ≡ answer self.old event.now) }
        ensures kept { OnOk result (self.new ≡ kept_after self.old event.now) }
        ensures err { OnErr result (self.new ≡ self.old) }
    {
        let old_level = self.levels.level(&event.topic, &event.id);
        if old_level.is_same(event.level) {
            return Ok(None);
        }
        let number = self.count.saturating_add(1);
        let transition = transition_of(alloc, number, old_level, event)?;
        self.levels
            .put(alloc, &event.topic, &event.id, event.level)?;
        self.count = number;
        Ok(Some(transition))
    }

    /// Takes a transition that was made before: its new level is the last one of its topic and id from now
    /// on. After `NoMemory` nothing has changed.
    pub fn put(&mut self, alloc: Global, transition: &Transition) -> Result<(), NoMemory>
        ensures ok { OnOk result (self.new ≡ with_transition self.old transition.now) }
        ensures err { OnErr result (self.new ≡ self.old) }
        // One whose level is another than the last one of its topic and id is kept as its event would be.
        ensures stands { (events : List EventValue) → StandsFor events self.old
            → same_level (level_before self.old.levels transition.now.topic transition.now.id)
            transition.now.new_level ≡ false
            → OnOk result (StandsFor (events ++ event_of transition.now ∷ []) self.new) }
    {
        self.keep(alloc, transition)
    }

    fn keep(&mut self, alloc: Global, transition: &Transition) -> Result<(), NoMemory>
        ensures ok { OnOk result (self.new ≡ with_transition self.old transition.now) }
        ensures err { OnErr result (self.new ≡ self.old) }
    {
        let level = transition.new_level;
        self.levels
            .put(alloc, &transition.topic, &transition.id, level)?;
        self.count = self.count.saturating_add(1);
        Ok(())
    }

    /// The greatest level of the ids of a topic, None where the topic has had no transition.
    pub fn level(&self, topic: &Text) -> Option<Level>
        ensures { result ≡ topic_level self.now.levels topic.now }
    {
        self.levels.greatest(topic)
    }

    /// How many transitions there were, which is the number of the last one; it stands still at the end of
    /// its type.
    pub fn count(&self) -> u64
        ensures { result ≡ self.now.count }
    {
        self.count
    }

    /// The topics and ids that have had a transition, each with its last level.
    pub fn levels(&self) -> &Levels
        ensures { result.now ≡ self.now.levels }
    {
        &self.levels
    }
}

impl Duplicate for Topics {
    fn copy(&self, alloc: Global) -> Result<Topics, NoMemory> {
        Ok(Topics {
            count: self.count,
            levels: self.levels.copy(alloc)?,
        })
    }
}
