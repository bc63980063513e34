//! What a look reads of one transition, before it is posted, while it is pending and behind its publishing.

ghost use Rattle.std.specs.Prelude.{◌≡◌};

use crate::copies::text_of;
use crate::looks::{copy_of, level_in, tell};
use crate::posts::{post, publish, transition};
use kap_base::{Level, NoMemory, Text};
use std::alloc::Global;
use std::marker::Brand;
use std::process::Abort;
use std::sync::Wait;
use std::test::Fail;
use topic_board::{Look, Naming, Opened, Poster, Shown, board};
use topic_core::Topics;

/// The topic of an alert node without a name.
const TOPIC: &str = "main:c:alert2";

/// The text of that topic.
const TEXT: &str = "main:c:alert2 CRITICAL m=CRITICAL; ";

/// Whether topics have this text.
fn have_text(alloc: Global, topics: &Topics, kept: &str) -> Result<bool, NoMemory> {
    let text = text_of(alloc, topics)?;
    Ok(text.as_slice() == kept.as_bytes())
}

/// Whether the topic has this level to the look, and its copy this text.
fn reads<J: Naming, O: Drop, T: Shown<J, O>>(
    alloc: Global,
    look: &mut Look<J, O, T>,
    topic: &Text,
    level: Option<Level>,
    kept: &str,
) -> Result<bool, NoMemory> {
    let read = level_in(look, topic);
    match copy_of(alloc, look) {
        Some(topics) => Ok(have_text(alloc, &topics, kept)? && read == Some(level)),
        None => Ok(false),
    }
}

/// Reads before a transition is posted and while it is pending.
fn read_before<J: Naming, O: Drop, T: Shown<J, O>, R: Wait + Drop>(
    alloc: Global,
    poster: &mut Poster<J, O, T, R>,
    look: &mut Look<J, O, T>,
    topic: &Text,
) -> Result<bool, NoMemory> {
    let before = reads(alloc, look, topic, None, "")?;
    post(
        alloc,
        poster,
        &transition(alloc, 1, TOPIC, "m", Level::Critical)?,
    )?;
    tell(poster, look);
    let pending = reads(alloc, look, topic, None, "")?;
    Ok(before && pending)
}

/// Reads once it is published.
fn read_behind<J: Naming, O: Drop, T: Shown<J, O>, R: Wait + Drop>(
    alloc: Global,
    poster: &mut Poster<J, O, T, R>,
    look: &mut Look<J, O, T>,
    topic: &Text,
) -> Result<bool, NoMemory> {
    publish(poster)?;
    tell(poster, look);
    let behind = reads(alloc, look, topic, Some(Level::Critical), TEXT)?;
    Ok(behind && poster.count() == 1 && look.aways() == 0)
}

/// Reads before a transition is posted, while it is pending, and once it is published.
fn read_in_turn<J: Naming, O: Drop, T: Shown<J, O>, R: Wait + Drop>(
    alloc: Global,
    poster: &mut Poster<J, O, T, R>,
    look: &mut Look<J, O, T>,
) -> Result<bool, NoMemory> {
    let topic = Text::from_str(alloc, TOPIC)?;
    let before = read_before(alloc, poster, look, &topic)?;
    let behind = read_behind(alloc, poster, look, &topic)?;
    Ok(before && behind)
}

fn read_one<J: Naming, R: Wait>(rt: &R, alloc: Global, opened: Opened) -> Result<bool, NoMemory>
    requires { opened ≡ J.book }
{
    let (mut poster, mut looks) = board::<J, &R>(rt, alloc, opened, 2)?;
    match looks.pop() {
        None => Ok(false),
        Some(mut look) => read_in_turn(alloc, &mut poster, &mut look),
    }
}

#[test]
fn a_look_reads_what_was_published(rt: HostRuntime) -> Result<(), Fail> {
    assert!(rt; read_one::<Brand, _>(&rt, rt.alloc(), Opened::new())?);
    Ok(())
}
