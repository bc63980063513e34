//! The transitions of the tests.

use kap_base::{Level, NoMemory, Text};
use std::alloc::Global;
use std::sync::Wait;
use topic_board::{Naming, Poster, Shown};
use topic_core::Transition;

/// A transition of a topic and an id to this level, from OK.
pub fn transition(
    alloc: Global,
    number: u64,
    topic: &str,
    id: &str,
    new_level: Level,
) -> Result<Transition, NoMemory> {
    Ok(Transition {
        number,
        topic: Text::from_str(alloc, topic)?,
        id: Text::from_str(alloc, id)?,
        old_level: Level::Fine,
        new_level,
        time: 0,
        message: Text::from_str(alloc, "a message")?,
    })
}

/// Posts a transition.
pub fn post<J: Naming, O: Drop, T: Shown<J, O>, R: Wait + Drop>(
    alloc: Global,
    poster: &mut Poster<J, O, T, R>,
    transition: &Transition,
) -> Result<(), NoMemory> {
    poster.post(alloc, transition)
}

/// Publishes what is pending.
pub fn publish<J: Naming, O: Drop, T: Shown<J, O>, R: Wait + Drop>(
    poster: &mut Poster<J, O, T, R>,
) -> Result<(), NoMemory> {
    poster.publish()
}

/// Posts a transition and publishes it.
pub fn show<J: Naming, O: Drop, T: Shown<J, O>, R: Wait + Drop>(
    alloc: Global,
    poster: &mut Poster<J, O, T, R>,
    transition: &Transition,
) -> Result<(), NoMemory> {
    post(alloc, poster, transition)?;
    publish(poster)
}
