//! The transitions of effects.

ghost use Rattle.std.specs.Prelude.{◌≡◌, ◌∷◌, ◌++◌, [], drop, length, true, List, OnOk};
ghost use Rattle.kap_base.specs.Events.{EventValue};
ghost use Rattle.effect_text.specs.Lines.{event_in, events_of};
ghost use Rattle.life_effects.specs.Times.{times_fit};
ghost use Rattle.topic_core.specs.Topics.{StandsFor, Trans};
ghost use Rattle.topic_core.specs.declared.transition.Transition.{Transition};

use kap_base::{Effect, Event, NoMemory, What};
use std::alloc::Global;
use topic_core::{Topics, Transition};

/// Puts a transition, the last of so many, behind others, unless its number is one of those that are stored.
fn put_due(
    transition: Transition,
    count: u64,
    stored: u64,
    due: &mut Vec<Transition>,
) -> Result<(), NoMemory>
    ensures { (before : List Transition) → due.old.items ≡ drop stored before
        → count ≡ length (before ++ transition ∷ [])
        → OnOk result (due.new.items ≡ drop stored (before ++ transition ∷ [])) }
{
    if stored < count {
        due.push(transition)?;
    }
    Ok(())
}

/// The time of an event lies in the range of times, so that its transition may be stored.
fn event_is_timely(event: &Event)
    ensures { times_fit (event.now ∷ []) ≡ true }
{
    // Only a field says what holds of each event.
    let _time = event.time;
}

/// Has topics take an event, and puts its transition, where it makes one, behind others, unless its number is
/// one of those that are stored.
fn accept_event(
    alloc: Global,
    topics: &mut Topics,
    event: &Event,
    stored: u64,
    due: &mut Vec<Transition>,
) -> Result<(), NoMemory>
    ensures topics { (events : List EventValue) → StandsFor events topics.old
        → OnOk result (StandsFor (events ++ event.now ∷ []) topics.new) }
    ensures due { (events : List EventValue) → StandsFor events topics.old
        → due.old.items ≡ drop stored (Trans events)
        → OnOk result (due.new.items ≡ drop stored (Trans (events ++ event.now ∷ []))) }
    ensures times { times_fit (event.now ∷ []) ≡ true }
{
    event_is_timely(event);
    match topics.accept(alloc, event)? {
        Some(transition) => {
            let count = topics.count();
            if count == u64::MAX {
                return Err(NoMemory);
            }
            put_due(transition, count, stored, due)
        }
        None => Ok(()),
    }
}

/// Has topics take the event of an effect, where it is one.
fn accept_effect(
    alloc: Global,
    topics: &mut Topics,
    effect: &Effect,
    stored: u64,
    due: &mut Vec<Transition>,
) -> Result<(), NoMemory>
    ensures topics { (events : List EventValue) → StandsFor events topics.old
        → OnOk result (StandsFor (events ++ event_in effect.now.what) topics.new) }
    ensures due { (events : List EventValue) → StandsFor events topics.old
        → due.old.items ≡ drop stored (Trans events)
        → OnOk result (due.new.items ≡ drop stored (Trans (events ++ event_in effect.now.what))) }
    ensures times { times_fit (event_in effect.now.what) ≡ true }
{
    match &effect.what {
        What::Line(_) => Ok(()),
        What::Event(event) => accept_event(alloc, topics, event.value(), stored, due),
    }
}

/// Has topics take the events of effects, and puts the transitions that these make behind others, but for
/// those with the first so many numbers, which are stored. `NoMemory` comes also where there are 2^64 - 1
/// transitions.
pub(crate) fn accept_effects(
    alloc: Global,
    topics: &mut Topics,
    effects: &[Effect],
    stored: u64,
    due: &mut Vec<Transition>,
) -> Result<(), NoMemory>
    ensures topics { (events : List EventValue) → StandsFor events topics.old
        → OnOk result (StandsFor (events ++ events_of effects.now) topics.new) }
    ensures due { (events : List EventValue) → StandsFor events topics.old
        → due.old.items ≡ drop stored (Trans events)
        → OnOk result (due.new.items ≡ drop stored (Trans (events ++ events_of effects.now))) }
    ensures times { OnOk result (times_fit (events_of effects.now) ≡ true) }
{
    'accepting: for effect in effects {
        accept_effect(alloc, topics, effect, stored, due)?;
    }
    Ok(())
}
