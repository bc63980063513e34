//! A look reads in one thread while 10,000 transitions are published in another.

ghost use Rattle.std.specs.Prelude.{◌≡◌};

use crate::looks::{copy_of, count_in, is_refused, level_in, tell};
use crate::posts::{show, transition};
use kap_base::{Level, NoMemory, Text};
use std::alloc::Global;
use std::marker::Brand;
use std::process::Abort;
use std::sync::Wait;
use std::test::Fail;
use std::thread::{Threads, join};
use topic_board::{Look, Naming, Opened, Poster, Shown, board};

/// How many transitions are published.
const POSTS: u64 = 10_000;

/// How often the look reads at most.
const READS: u32 = 200_000;

/// The levels rise, each for a quarter of the transitions.
fn level_of(number: u64) -> Level {
    match number / (POSTS / 4) {
        0 => Level::Fine,
        1 => Level::Info,
        2 => Level::Warning,
        _ => Level::Critical,
    }
}

/// Publishes the transitions one by one, of three ids in turn.
fn publish_all<J: Naming, O: Drop, T: Shown<J, O>, R: Wait + Drop>(
    alloc: Global,
    poster: &mut Poster<J, O, T, R>,
) -> Result<(), NoMemory> {
    'publishing: for number in 0..POSTS {
        let id = match number % 3 {
            0 => "east",
            1 => "north",
            _ => "south",
        };
        let next = transition(alloc, number + 1, "cpu", id, level_of(number))?;
        show(alloc, poster, &next)?;
    }
    Ok(())
}

fn is_below(one: Option<Level>, other: Option<Level>) -> bool {
    match (one, other) {
        (_, None) => false,
        (None, Some(_)) => true,
        (Some(one), Some(other)) => one < other,
    }
}

/// What a look saw last.
#[derive(Clone, Copy)]
struct Last {
    level: Option<Level>,
    count: u64,
}

/// Reads once more. None where the look was refused or went back.
fn read_on<J: Naming, O: Drop, T: Shown<J, O>>(
    alloc: Global,
    look: &mut Look<J, O, T>,
    topic: &Text,
    last: Last,
) -> Option<Last> {
    let level = level_in(look, topic)?;
    let topics = copy_of(alloc, look)?;
    if is_below(level, last.level)
        || is_below(topics.level(topic), level)
        || topics.count() < last.count
    {
        return None;
    }
    Some(Last {
        level,
        count: topics.count(),
    })
}

/// Reads until all was seen, or often enough. None where the look was refused or went back.
fn watch<J: Naming, O: Drop, T: Shown<J, O>>(
    alloc: Global,
    look: &mut Look<J, O, T>,
    topic: &Text,
) -> Option<Last> {
    let mut last = Last {
        level: None,
        count: 0,
    };
    'watching: for _ in 0..READS {
        last = read_on(alloc, look, topic, last)?;
        if last.count == POSTS {
            break;
        }
    }
    Some(last)
}

/// Whether the look, once it was told, sees all, and is refused when the board has ended.
fn sees_the_end<J: Naming, O: Drop, T: Shown<J, O>, R: Wait + Drop>(
    alloc: Global,
    poster: Poster<J, O, T, R>,
    look: &mut Look<J, O, T>,
    topic: &Text,
) -> bool {
    tell(&poster, look);
    let level = level_in(look, topic);
    let copied = count_in(alloc, look);
    let before = look.aways();
    poster.end();
    let refused = is_refused(alloc, look, topic);
    let behind = look.aways();
    level == Some(Some(Level::Critical))
        && copied == Some(POSTS)
        && refused
        && before == 0
        && behind == 2
}

/// A look in one thread, the poster in another. Whether all was posted, and the look never went back.
fn beside<
    J: Naming + Send + Sync,
    O: Drop + Send + Sync,
    T: Shown<J, O> + Send + Sync,
    R: Wait + Drop + Send + Sync,
    H: Threads + Sync,
>(
    rt: &H,
    alloc: Global,
    poster: &mut Poster<J, O, T, R>,
    look: &mut Look<J, O, T>,
    topic: &Text,
) -> bool {
    let (seen, posted) = join(
        rt,
        || watch(alloc, look, topic),
        || publish_all(alloc, poster),
    );
    seen.is_some() && posted.is_ok()
}

/// The same, and what the look sees at the end.
fn watch_all<
    J: Naming + Send + Sync,
    O: Drop + Send + Sync,
    T: Shown<J, O> + Send + Sync,
    R: Wait + Drop + Send + Sync,
    H: Threads + Sync,
>(
    rt: &H,
    alloc: Global,
    mut poster: Poster<J, O, T, R>,
    look: &mut Look<J, O, T>,
) -> Result<bool, NoMemory> {
    let topic = Text::from_str(alloc, "cpu")?;
    let went_on = beside(rt, alloc, &mut poster, look, &topic);
    Ok(went_on && sees_the_end(alloc, poster, look, &topic))
}

fn watched<J: Naming + Send + Sync, R: Threads + Wait + Sync>(
    rt: &R,
    alloc: Global,
    opened: Opened,
) -> Result<bool, NoMemory>
    requires { opened ≡ J.book }
{
    let (poster, mut looks) = board::<J, &R>(rt, alloc, opened, 2)?;
    match looks.pop() {
        None => Ok(false),
        Some(mut look) => watch_all(rt, alloc, poster, &mut look),
    }
}

#[test]
fn a_look_never_goes_back(rt: HostRuntime) -> Result<(), Fail> {
    assert!(rt; watched::<Brand, _>(&rt, rt.alloc(), Opened::new())?);
    Ok(())
}
