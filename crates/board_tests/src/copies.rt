//! What topics hold, as text, and a copy of them.

use crate::posts::transition;
use kap_base::{Bytes, Duplicate, Level, NoMemory};
use std::alloc::Global;
use std::process::Abort;
use std::test::Fail;
use topic_core::{TextTree, Topics};

fn put_ids(ids: &TextTree<Level>, to: &mut Bytes) -> Result<(), NoMemory> {
    'ids: for (id, level) in ids.entries() {
        to.push(b' ')?;
        to.append(id.bytes())?;
        to.push(b'=')?;
        to.append(level.name().as_bytes())?;
    }
    Ok(())
}

/// The topics in their order, each with its level and its ids: `cpu WARNING a=OK b=WARNING; `.
pub fn text_of(alloc: Global, topics: &Topics) -> Result<Bytes, NoMemory> {
    let mut to = Bytes::new(alloc);
    'topics: for (topic, ids) in topics.levels().entries() {
        to.append(topic.bytes())?;
        to.push(b' ')?;
        let level = topics.level(topic).unwrap_or(Level::Fine);
        to.append(level.name().as_bytes())?;
        put_ids(ids, &mut to)?;
        to.append(b"; ")?;
    }
    Ok(to)
}

/// Whether the topics have this text, and so many transitions were taken.
fn stand(alloc: Global, topics: &Topics, text: &str, count: u64) -> Result<bool, NoMemory> {
    let to = text_of(alloc, topics)?;
    Ok(to.as_slice() == text.as_bytes() && topics.count() == count)
}

fn put(
    alloc: Global,
    topics: &mut Topics,
    topic: &str,
    id: &str,
    level: Level,
) -> Result<(), NoMemory> {
    topics.put(alloc, &transition(alloc, 1, topic, id, level)?)
}

fn put_disks(alloc: Global, topics: &mut Topics) -> Result<(), NoMemory> {
    put(alloc, topics, "disk", "b", Level::Critical)?;
    put(alloc, topics, "disk", "b", Level::Fine)
}

fn put_cpus(alloc: Global, topics: &mut Topics) -> Result<(), NoMemory> {
    put(alloc, topics, "cpu", "south", Level::Info)?;
    put(alloc, topics, "cpu", "east", Level::Warning)?;
    put(alloc, topics, "cpu", "eas", Level::Fine)
}

/// The text of the topics of disks and cpus.
const TEXT: &str = "cpu WARNING eas=OK east=WARNING south=INFO; disk OK b=OK; ";

/// The same, behind a topic without a name.
const TEXT_BEHIND: &str = " INFO =INFO; cpu WARNING eas=OK east=WARNING south=INFO; disk OK b=OK; ";

/// Whether a copy stays as it is where another transition is taken.
fn copy_stays(alloc: Global, topics: &mut Topics) -> Result<bool, NoMemory> {
    let copy = topics.copy(alloc)?;
    put(alloc, topics, "", "", Level::Info)?;
    stand(alloc, &copy, TEXT, 5)
}

#[test]
fn topics_stand_in_byte_order(rt: HostRuntime) -> Result<(), Fail> {
    let mut topics = Topics::new(rt.alloc());
    put_disks(rt.alloc(), &mut topics)?;
    put_cpus(rt.alloc(), &mut topics)?;
    assert!(rt; stand(rt.alloc(), &topics, TEXT, 5)?);
    assert!(rt; copy_stays(rt.alloc(), &mut topics)?);
    assert!(rt; stand(rt.alloc(), &topics, TEXT_BEHIND, 6)?);
    Ok(())
}

#[test]
fn a_transition_is_copied(rt: HostRuntime) -> Result<(), Fail> {
    let first = transition(rt.alloc(), 7, "cpu", "east", Level::Warning)?;
    assert!(rt; first.copy(rt.alloc())? == first);
    Ok(())
}
