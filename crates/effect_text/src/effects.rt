//! The lines of effects.

ghost use Rattle.std.specs.Prelude.{◌≡◌, ◌++◌, ◌∷◌, [], true, IfOk, List, OnOk, option_map};
ghost use Rattle.std.specs.List.{flat_map, list_all};
ghost use Rattle.std.specs.Option.{option_to_list};
ghost use Rattle.kap_base.specs.Events.{EventValue};
ghost use Rattle.kap_base.specs.Points.{is_time};
ghost use Rattle.topic_core.specs.Print.{transition_line};
ghost use Rattle.topic_core.specs.Topics.{StandsFor, Trans};
ghost use Rattle.topic_core.specs.declared.transition.Transition.{Transition};
ghost use Rattle.effect_text.specs.Lines.{effect_lines, event_in, events_of, id_of, new_transitions};
ghost use Rattle.effect_text.specs.Lines.{node_of, out_line, task_of, text_behind};

use crate::names::TaskNames;
use kap_base::{Bytes, Effect, Event, NoMemory, Point, What};
use line_points::put_line;
use std::alloc::Global;
use topic_core::{Topics, Transition, print_transition};

/// The task of a life.
fn task_of(tasks: &[TaskNames], life: u32) -> Option<&TaskNames>
    ensures { option_map (λ task. task.now) result ≡ task_of tasks.now life }
{
    if life == 0 {
        return None;
    }
    tasks.get(life as usize - 1)
}

/// The id of the task of a life, empty where no task has it.
pub(crate) fn id_of(tasks: &[TaskNames], life: u32) -> &[u8]
    ensures { result.now ≡ id_of tasks.now life }
{
    match task_of(tasks, life) {
        Some(task) => task.id.bytes(),
        None => b"",
    }
}

/// The name of a node of the task of a life, empty where no task has it.
pub(crate) fn node_of(tasks: &[TaskNames], life: u32, node: u32) -> &[u8]
    ensures { result.now ≡ node_of tasks.now life node }
{
    match task_of(tasks, life) {
        Some(task) => match task.nodes.as_slice().get(node as usize) {
            Some(name) => name.bytes(),
            None => b"",
        },
        None => b"",
    }
}

/// Adds the line of a logged point.
pub(crate) fn put_out_line(
    id: &[u8],
    node: &[u8],
    point: &Point,
    text: &mut Bytes,
) -> Result<(), NoMemory>
    ensures { OnOk result (text.new ≡ text.old ++ out_line id.now node.now point.now) }
{
    text.append(b"out ")?;
    text.append(id)?;
    text.push(b' ')?;
    text.append(node)?;
    text.push(b' ')?;
    put_line(point, text)?;
    text.push(b'\n')
}

/// The time of an event lies in the range of times, so that its transition may be stored.
fn event_is_timely(event: &Event)
    ensures { is_time event.now.time ≡ true }
{
    // Only a field says what holds of each event.
    let _time = event.time;
}

/// Lets topics take an event, and adds the line of the transition that it makes, where it makes one, and
/// answers that.
pub(crate) fn accept_event(
    alloc: Global,
    topics: &mut Topics,
    event: &Event,
    text: &mut Bytes,
) -> Result<Option<Transition>, NoMemory>
    ensures lines { (events : List EventValue) → StandsFor events topics.old → OnOk result
        (text.new ≡ text.old ++ flat_map transition_line (new_transitions events event.now)) }
    ensures topics { (events : List EventValue) → StandsFor events topics.old → OnOk result
        (StandsFor (events ++ event.now ∷ []) topics.new) }
    ensures all { (events : List EventValue) → StandsFor events topics.old → IfOk result (λ t.
        Trans (events ++ event.now ∷ []) ≡ Trans events ++ option_to_list t) }
{
    match topics.accept(alloc, event)? {
        Some(transition) => {
            let line = print_transition(alloc, &transition)?;
            text.append(line.as_slice())?;
            Ok(Some(transition))
        }
        None => Ok(None),
    }
}

/// Adds the line of the transition that an event makes, where it makes one, and the transition itself.
fn tell_event(
    alloc: Global,
    topics: &mut Topics,
    event: &Event,
    text: &mut Bytes,
    told: &mut Vec<Transition>,
) -> Result<(), NoMemory>
    ensures lines { (events : List EventValue) → StandsFor events topics.old → OnOk result
        (text.new ≡ text.old ++ flat_map transition_line (new_transitions events event.now)) }
    ensures topics { (events : List EventValue) → StandsFor events topics.old → OnOk result
        (StandsFor (events ++ event.now ∷ []) topics.new) }
    ensures told { (events : List EventValue) (before : List Transition) → StandsFor events topics.old
        → Trans events ≡ before ++ told.old.items
        → OnOk result (Trans (events ++ event.now ∷ []) ≡ before ++ told.new.items) }
    ensures times { is_time event.now.time ≡ true }
{
    event_is_timely(event);
    match accept_event(alloc, topics, event, text)? {
        Some(transition) => {
            told.push(transition)?;
            Ok(())
        }
        None => Ok(()),
    }
}

/// Adds the lines of an effect, and the transition of its event, where that makes one.
fn tell_effect(
    alloc: Global,
    tasks: &[TaskNames],
    topics: &mut Topics,
    effect: &Effect,
    text: &mut Bytes,
    told: &mut Vec<Transition>,
) -> Result<(), NoMemory>
    ensures lines { (events : List EventValue) → StandsFor events topics.old → OnOk result
        (text.new ≡ text.old ++ effect_lines tasks.now events effect.now) }
    ensures topics { (events : List EventValue) → StandsFor events topics.old → OnOk result
        (StandsFor (events ++ event_in effect.now.what) topics.new) }
    ensures told { (events : List EventValue) (before : List Transition) → StandsFor events topics.old
        → Trans events ≡ before ++ told.old.items
        → OnOk result (Trans (events ++ event_in effect.now.what) ≡ before ++ told.new.items) }
    ensures times { list_all (λ e. is_time e.time) (event_in effect.now.what) ≡ true }
{
    match &effect.what {
        What::Line(point) => {
            let id = id_of(tasks, effect.life);
            put_out_line(
                id,
                node_of(tasks, effect.life, effect.node),
                point.value(),
                text,
            )
        }
        What::Event(event) => tell_event(alloc, topics, event.value(), text, told),
    }
}

/// Adds the text of effects that come behind the events that `topics` has taken, and lets it take theirs: a
/// line `out ID NODE POINT` for each logged point, with the point in canonical line protocol, and one `alert
/// ..` for each transition, as `print_transition` has it. The transitions themselves are appended to `told`,
/// which so goes on to be the last transitions of the events; their times lie in the range of times. After
/// `NoMemory` the text, the topics and what was told are any.
pub fn tell_effects(
    alloc: Global,
    tasks: &[TaskNames],
    topics: &mut Topics,
    effects: &[Effect],
    text: &mut Bytes,
    told: &mut Vec<Transition>,
) -> Result<(), NoMemory>
    ensures text { (events : List EventValue) → StandsFor events topics.old → OnOk result
        (text.new ≡ text.old ++ text_behind tasks.now events effects.now) }
    ensures topics { (events : List EventValue) → StandsFor events topics.old → OnOk result
        (StandsFor (events ++ events_of effects.now) topics.new) }
    ensures told { (events : List EventValue) (before : List Transition) → StandsFor events topics.old
        → Trans events ≡ before ++ told.old.items
        → OnOk result (Trans (events ++ events_of effects.now) ≡ before ++ told.new.items) }
    ensures times { OnOk result (list_all (λ e. is_time e.time) (events_of effects.now) ≡ true) }
{
    'putting: for effect in effects {
        tell_effect(alloc, tasks, topics, effect, text, told)?;
    }
    Ok(())
}

/// Adds the text of effects as `tell_effects` does, for a caller that doesn't want the transitions.
pub fn put_effects(
    alloc: Global,
    tasks: &[TaskNames],
    topics: &mut Topics,
    effects: &[Effect],
    text: &mut Bytes,
) -> Result<(), NoMemory>
    ensures text { (events : List EventValue) → StandsFor events topics.old → OnOk result
        (text.new ≡ text.old ++ text_behind tasks.now events effects.now) }
    ensures topics { (events : List EventValue) → StandsFor events topics.old → OnOk result
        (StandsFor (events ++ events_of effects.now) topics.new) }
{
    let mut told = Vec::new(alloc);
    tell_effects(alloc, tasks, topics, effects, text, &mut told)
}
