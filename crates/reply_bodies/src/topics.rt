//! Topics in replies.

ghost use Rattle.std.specs.Prelude.{◌≡◌, ◌∷◌, ◌++◌, [], codes, map, IfOk, OnOk};
ghost use Rattle.std.specs.FinMap.{entries};
ghost use Rattle.json.specs.Token.{end_object, key, string};
ghost use Rattle.json.specs.Tree.{items_tokens, json_tokens};
ghost use Rattle.serde_json.specs.Data.{array};
ghost use Rattle.serde_json.specs.View.{items_of};
ghost use Rattle.serde_json.specs.Written.{items_outline, outline};
ghost use Rattle.kap_base.specs.Levels.{level_name};
ghost use Rattle.topic_core.specs.Topics.{greatest_level, worse_level, worst_level};
ghost use Rattle.reply_bodies.specs.Bodies.{IsDueOrShort, given_reply, topic_reply, topics_reply};
ghost use Rattle.reply_bodies.specs.Texts.{topic_text, topics_text};
ghost use Rattle.reply_bodies.specs.Values.{entry_value, id_value, level_value, topic_value};

use crate::replies::{body_of, given_reply, new_body, put_text};
use json::Writer;
use kap_base::{Bytes, Level, NoMemory, Text};
use kap_http::{Refusal, Reply};
use std::alloc::Global;
use topic_core::{Levels, TextTree, Topics};

/// The worse of two levels.
fn worse(one: Level, other: Level) -> Level
    ensures { result ≡ worse_level one other }
{
    if one < other { other } else { one }
}

/// The greatest of the levels of the ids of a topic, OK where there are none.
#[tactic(auto, unfolding(topic_core::specs::Topics::worst_level))]
fn greatest(ids: &TextTree<Level>) -> Level
    ensures { result ≡ greatest_level (entries ids.now) }
{
    let mut greatest = Level::Fine;
    'levels: for (_, level) in ids.entries() {
        greatest = worse(greatest, *level);
    }
    greatest
}

/// Puts the members that are a name and a level, and the end of what has them.
fn put_members(writer: &mut Writer, name: &Text, level: Level) -> Result<(), NoMemory>
    ensures tokens { OnOk result (writer.new.tokens ≡ writer.old.tokens
        ++ key (codes "id") ∷ string name.now
        ∷ key (codes "level") ∷ string (level_name level) ∷ end_object ∷ []) }
    ensures before { writer.new.before ≡ writer.old.before }
{
    put_text(writer, "id", name.as_str())?;
    put_text(writer, "level", level.name())?;
    writer.end_object()?;
    Ok(())
}

/// Puts the value of what has a level.
fn put_level(writer: &mut Writer, name: &Text, level: Level) -> Result<(), NoMemory>
    ensures tokens { OnOk result (writer.new.tokens ≡ writer.old.tokens
        ++ json_tokens (outline (level_value name.now level))) }
    ensures before { writer.new.before ≡ writer.old.before }
{
    writer.begin_object()?;
    put_members(writer, name, level)
}

/// Puts the values of topics, and the end of a list.
fn put_topics(writer: &mut Writer, levels: &Levels) -> Result<(), NoMemory>
    ensures tokens { OnOk result (writer.new.tokens ≡ writer.old.tokens
        ++ items_tokens (items_outline (items_of (map entry_value (entries levels.now))))) }
    ensures before { writer.new.before ≡ writer.old.before }
{
    'putting: for (topic, ids) in levels.entries() {
        put_level(writer, topic, greatest(ids))?;
    }
    writer.end_array()?;
    Ok(())
}

/// Puts the values of the ids of a topic, and the end of a list.
fn put_ids(writer: &mut Writer, ids: &TextTree<Level>) -> Result<(), NoMemory>
    ensures tokens { OnOk result (writer.new.tokens ≡ writer.old.tokens
        ++ items_tokens (items_outline (items_of (map id_value (entries ids.now))))) }
    ensures before { writer.new.before ≡ writer.old.before }
{
    'putting: for (id, level) in ids.entries() {
        put_level(writer, id, *level)?;
    }
    writer.end_array()?;
    Ok(())
}

/// Puts the member that has the ids of a topic.
fn put_events(writer: &mut Writer, ids: &TextTree<Level>) -> Result<(), NoMemory>
    ensures tokens { OnOk result (writer.new.tokens ≡ writer.old.tokens ++ key (codes "events")
        ∷ json_tokens (outline (array (items_of (map id_value (entries ids.now)))))) }
    ensures before { writer.new.before ≡ writer.old.before }
{
    writer.key("events")?;
    writer.begin_array()?;
    put_ids(writer, ids)
}

/// The text of topics.
#[tactic(auto, using(crate::proofs::TextLaws::topics_printed))]
fn topics_body(alloc: Global, levels: &Levels) -> Result<Bytes, NoMemory>
    ensures { IfOk result (λ body. body ≡ topics_text levels.now) }
{
    let mut writer = new_body(alloc);
    writer.begin_object()?;
    writer.key("topics")?;
    writer.begin_array()?;
    put_topics(&mut writer, levels)?;
    writer.end_object()?;
    Ok(body_of(writer))
}

/// Puts the value of a topic.
fn put_topic(writer: &mut Writer, name: &Text, ids: &TextTree<Level>) -> Result<(), NoMemory>
    ensures tokens { OnOk result (writer.new.tokens ≡ writer.old.tokens
        ++ json_tokens (outline (topic_value name.now ids.now))) }
    ensures before { writer.new.before ≡ writer.old.before }
{
    writer.begin_object()?;
    put_events(writer, ids)?;
    put_members(writer, name, greatest(ids))
}

/// The text of a topic of this name, with these ids.
#[tactic(auto, using(crate::proofs::TextLaws::topic_printed))]
fn topic_body(alloc: Global, name: &Text, ids: &TextTree<Level>) -> Result<Bytes, NoMemory>
    ensures { IfOk result (λ body. body ≡ topic_text name.now ids.now) }
{
    let mut writer = new_body(alloc);
    put_topic(&mut writer, name, ids)?;
    Ok(body_of(writer))
}

/// The reply that gives the topics that have had a transition, in byte order, each with the greatest level of
/// its ids; or 503 where memory ran out. It takes time linear in the topics and their ids.
#[tactic(auto, using(crate::proofs::TextLaws::given_due))]
pub fn topics_reply(alloc: Global, topics: &Topics) -> Reply
    ensures { IsDueOrShort (topics_reply topics.now) result }
{
    given_reply(alloc, topics_body(alloc, topics.levels()))
}

/// The reply that gives the topic of this name: its ids that have had a transition, in byte order, each with
/// its last level, and the greatest of these; 404 `not found` where no id of it has had one; or 503 where
/// memory ran out. It takes time linear in its ids.
#[tactic(auto, using(crate::proofs::TextLaws::given_due, crate::proofs::TextLaws::refused_due))]
pub fn topic_reply(alloc: Global, topics: &Topics, name: &Text) -> Reply
    ensures { IsDueOrShort (topic_reply topics.now name.now) result }
{
    match topics.levels().ids(name) {
        Some(ids) => given_reply(alloc, topic_body(alloc, name, ids)),
        None => Refusal::NoPath.reply(alloc),
    }
}
