//! The list of topics.

ghost use Rattle.std.specs.Prelude.{◌≡◌, ◌++◌, OnOk};
ghost use Rattle.std.specs.FinMap as map;
ghost use Rattle.std.specs.List.{flat_map};
ghost use Rattle.store_lists.specs.Lists.{id_line, level_in, level_line, topic_lines, topics_text};
ghost use Rattle.store_lists.specs.Writing.{Lists, PutsLines, WriteCause};

use crate::fault::ListFault;
use crate::writing::{write_piece, write_rest};
use kap_base::{Bytes, Level, NoMemory, Text};
use kap_io::{Failed, Sink};
use std::alloc::Global;
use topic_core::{Levels, TextTree, put_word};

/// The level of a topic: the greatest of its ids, OK where it has none.
fn level_in(levels: &Levels, topic: &Text) -> Level
    ensures { result ≡ level_in levels.now topic.now }
{
    levels.greatest(topic).unwrap_or(Level::Fine)
}

/// Adds a line: a word, a level, and the name of what has this level.
fn put_level(word: &[u8], level: Level, name: &Text, text: &mut Bytes) -> Result<(), NoMemory>
    ensures { OnOk result (text.new ≡ text.old ++ level_line word.now level name.now) }
{
    text.append(word)?;
    text.append(level.name().as_bytes())?;
    text.push(b' ')?;
    put_word(name, text)?;
    text.push(b'\n')
}

/// Adds the line of a topic, or of an id, to the text that is due, and writes this, where it is a whole
/// piece.
fn put_line<K: Sink>(
    word: &[u8],
    level: Level,
    name: &Text,
    text: &mut Bytes,
    out: &mut K,
) -> Result<(), ListFault>
    ensures puts { PutsLines result (level_line word.now level name.now) text.old text.new
        (K.written out.old) (K.written out.new) }
    ensures cause { WriteCause (K.faults out.old) (K.faults out.new) result }
{
    put_level(word, level, name, text)?;
    match write_piece(out, text) {
        Ok(()) => Ok(()),
        Err(Failed) => Err(ListFault::WriteFault),
    }
}

/// Adds the lines of the ids of a topic.
fn put_ids<K: Sink>(ids: &TextTree<Level>, text: &mut Bytes, out: &mut K) -> Result<(), ListFault>
    ensures puts { PutsLines result (flat_map id_line (map.entries ids.now)) text.old text.new
        (K.written out.old) (K.written out.new) }
    ensures cause { WriteCause (K.faults out.old) (K.faults out.new) result }
{
    'putting: for (id, level) in ids.entries() {
        if let Err(fault) = put_line(b"id ", *level, id, text, out) {
            return Err(fault);
        }
    }
    Ok(())
}

/// Adds the lines of a topic: its own, and those of its ids.
fn put_topic<K: Sink>(
    levels: &Levels,
    topic: &Text,
    ids: &TextTree<Level>,
    text: &mut Bytes,
    out: &mut K,
) -> Result<(), ListFault>
    ensures puts { PutsLines result (topic_lines levels.now (topic.now, ids.now)) text.old text.new
        (K.written out.old) (K.written out.new) }
    ensures cause { WriteCause (K.faults out.old) (K.faults out.new) result }
{
    if let Err(fault) = put_line(b"topic ", level_in(levels, topic), topic, text, out) {
        return Err(fault);
    }
    put_ids(ids, text, out)
}

/// Writes the lines of topics, in byte order: of each its level, which is the greatest of its ids, and behind
/// it those of its ids, in byte order too. After an `Err` a prefix of them is written. `WriteFault` comes
/// only where the output counted a fault in this call, and `NoMemory` where memory ran out; no other fault
/// comes.
pub fn write_topics<K: Sink>(alloc: Global, levels: &Levels, out: &mut K) -> Result<(), ListFault>
    ensures lists { Lists result (topics_text levels.now) (K.written out.old) (K.written out.new) }
    ensures cause { WriteCause (K.faults out.old) (K.faults out.new) result }
{
    let mut text = Bytes::new(alloc);
    'writing: for (topic, ids) in levels.entries() {
        if let Err(fault) = put_topic(levels, topic, ids, &mut text, out) {
            return Err(fault);
        }
    }
    write_rest(out, &text)
}
