//! The last level of each topic and id.

ghost use Rattle.std.specs.Prelude.{◌≡◌, IfOk, OnErr, OnOk};
ghost use Rattle.std.specs.FinMap as map;
ghost use Rattle.std.specs.Option.{option_copied};
ghost use Rattle.kap_base.specs.Maps.{byte_order};
ghost use Rattle.topic_core.specs.Topics.{greatest_level, level_before, put_level, topic_level, worse_level};

use crate::text_tree::TextTree;
use kap_base::{Duplicate, Level, NoMemory, Text};
use std::alloc::Global;
use std::collections::BTreeMap;
use std::collections::btree_map::Iter;
use std::marker::Model;

/// The topics and ids that have had a transition, each with its last level.
#[derive(Debug, Drop)]
pub struct Levels {
    topics: TextTree<TextTree<Level>>,
}

impl Model for Levels {
    ghost use Rattle.std.specs.Coded.{codes};
    ghost use Rattle.kap_base.specs.Maps.{KeyMap, key_map_code};
    ghost use Rattle.kap_base.specs.declared.items.Level.{Level};

    ghost Value = { KeyMap (KeyMap Level) };

    ghost coded = { Prim.hlevel (codes, key_map_code) };

    ghost view = { λ l. l.topics };
}

/// A map with this level of this id alone.
fn one_id(alloc: Global, id: Text, level: Level) -> Result<TextTree<Level>, NoMemory>
    ensures { IfOk result (λ ids. ids ≡ map.insert map.empty id level) }
{
    let mut ids = TextTree::new(alloc);
    ids.insert(id, level)?;
    Ok(ids)
}

fn put(
    alloc: Global,
    topics: &mut BTreeMap<Text, TextTree<Level>>,
    topic: &Text,
    id: &Text,
    level: Level,
) -> Result<(), NoMemory>
    ensures ok { OnOk result (map.from_entries {R = byte_order} topics.new.entries
        ≡ put_level (map.from_entries topics.old.entries) topic.now id.now level) }
    ensures err { OnErr result (map.from_entries {R = byte_order} topics.new.entries
        ≡ map.from_entries topics.old.entries) }
{
    let id = id.copy(alloc)?;
    if let Some(ids) = topics.get_mut(topic) {
        return ids.insert(id, level);
    }
    let ids = one_id(alloc, id, level)?;
    topics.insert(topic.copy(alloc)?, ids)?;
    Ok(())
}

fn worse(one: Level, other: Level) -> Level
    ensures { result ≡ worse_level one other }
{
    if one < other { other } else { one }
}

/// The greatest of the levels, OK where there are none.
#[tactic(auto, unfolding(crate::specs::Topics::worst_level))]
fn greatest(ids: &TextTree<Level>) -> Level
    ensures { result ≡ greatest_level (map.entries ids.now) }
{
    let mut greatest = Level::Fine;
    'levels: for (_, level) in ids.entries() {
        greatest = worse(greatest, *level);
    }
    greatest
}

impl Levels {
    /// No topics.
    pub fn new(alloc: Global) -> Levels
        ensures { result ≡ map.empty }
    {
        Levels {
            topics: TextTree::new(alloc),
        }
    }

    /// The topics in byte order, and for each one its ids in byte order, each with its last level.
    pub fn entries(&self) -> Iter<'_, Text, TextTree<Level>>
        ensures { result ≡ map.entries self.now }
    {
        self.topics.entries()
    }

    /// The last levels of the ids of a topic.
    pub fn ids(&self, topic: &Text) -> Option<&TextTree<Level>>
        ensures { option_copied result ≡ map.get self.now topic.now }
    {
        self.topics.get(topic)
    }

    /// The last level of a topic and id, OK where it has had no transition.
    pub fn level(&self, topic: &Text, id: &Text) -> Level
        ensures { result ≡ level_before self.now topic.now id.now }
    {
        match self.ids(topic) {
            Some(ids) => match ids.get(id) {
                Some(level) => *level,
                None => Level::Fine,
            },
            None => Level::Fine,
        }
    }

    /// The greatest level of the ids of a topic, None where the topic has had no transition.
    pub fn greatest(&self, topic: &Text) -> Option<Level>
        ensures { result ≡ topic_level self.now topic.now }
    {
        match self.ids(topic) {
            Some(ids) => Some(greatest(ids)),
            None => None,
        }
    }

    pub(crate) fn put(
        &mut self,
        alloc: Global,
        topic: &Text,
        id: &Text,
        level: Level,
    ) -> Result<(), NoMemory>
        ensures ok { OnOk result (self.new ≡ put_level self.old topic.now id.now level) }
        ensures err { OnErr result (self.new ≡ self.old) }
    {
        put(alloc, &mut self.topics.tree, topic, id, level)
    }
}

impl Duplicate for Levels {
    fn copy(&self, alloc: Global) -> Result<Levels, NoMemory> {
        Ok(Levels {
            topics: self.topics.copy(alloc)?,
        })
    }
}
