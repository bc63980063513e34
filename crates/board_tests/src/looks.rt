//! What the tests ask of a look.

use kap_base::{Level, Text};
use std::alloc::Global;
use std::sync::Wait;
use topic_board::{Look, Naming, Poster, Shown};
use topic_core::Topics;

/// Tells a look what was published.
pub fn tell<J: Naming, O: Drop, T: Shown<J, O>, R: Wait + Drop>(
    poster: &Poster<J, O, T, R>,
    look: &mut Look<J, O, T>,
) {
    look.learn(poster.tell());
}

/// The level of a topic, where it has one. None where the look is refused.
pub fn level_in<J: Naming, O: Drop, T: Shown<J, O>>(
    look: &mut Look<J, O, T>,
    topic: &Text,
) -> Option<Option<Level>> {
    match look.level(topic) {
        Ok(level) => Some(level),
        Err(_) => None,
    }
}

/// A copy of the topics. None where the look is refused.
pub fn copy_of<J: Naming, O: Drop, T: Shown<J, O>>(
    alloc: Global,
    look: &mut Look<J, O, T>,
) -> Option<Topics> {
    match look.copy(alloc) {
        Ok(topics) => Some(topics),
        Err(_) => None,
    }
}

/// How many transitions a copy of the topics has. None where the look is refused.
pub fn count_in<J: Naming, O: Drop, T: Shown<J, O>>(
    alloc: Global,
    look: &mut Look<J, O, T>,
) -> Option<u64> {
    match copy_of(alloc, look) {
        Some(topics) => Some(topics.count()),
        None => None,
    }
}

/// Whether a look is refused, by each of its calls.
pub fn is_refused<J: Naming, O: Drop, T: Shown<J, O>>(
    alloc: Global,
    look: &mut Look<J, O, T>,
    topic: &Text,
) -> bool {
    let level = level_in(look, topic);
    let count = count_in(alloc, look);
    level.is_none() && count.is_none()
}
