//! Values under texts, in a tree.

ghost use Rattle.std.specs.Prelude.{◌≡◌, IfOk, OnErr, OnOk};
ghost use Rattle.std.specs.FinMap as map;
ghost use Rattle.std.specs.Option.{option_copied};
ghost use Rattle.kap_base.specs.Maps.{KeyMap, byte_order};

use kap_base::{Duplicate, NoMemory, Text};
use std::alloc::Global;
use std::collections::BTreeMap;
use std::collections::btree_map::Iter;
use std::marker::Model;

/// A map from texts, in the byte order of its keys. What is put into it moves a few of the others at most, so
/// that many keys may come in any order.
#[derive(Debug, Drop)]
pub struct TextTree<V> {
    pub(crate) tree: BTreeMap<Text, V>,
}

impl<V> Model for TextTree<V> {
    ghost use Rattle.std.specs.FinMap as map;
    ghost use Rattle.kap_base.specs.Maps.{KeyMap, key_map_code};

    ghost Value = { KeyMap V };

    ghost coded = { key_map_code V.code };

    ghost view = { λ t. map.from_entries t.tree.entries };
}

fn value_at<'a, V>(tree: &'a BTreeMap<Text, V>, key: &Text) -> Option<&'a V>
    ensures { option_copied result ≡ map.get (map.from_entries {R = byte_order} tree.now.entries) key.now }
{
    tree.get(key)
}

fn put<V: Drop>(tree: &mut BTreeMap<Text, V>, key: Text, value: V) -> Result<(), NoMemory>
    ensures ok { OnOk result (map.from_entries {R = byte_order} tree.new.entries
        ≡ map.insert (map.from_entries tree.old.entries) key value) }
    ensures err { OnErr result (tree.new.entries ≡ tree.old.entries) }
{
    tree.insert(key, value)?;
    Ok(())
}

/// An equal map.
fn copy_of<V: Duplicate + Drop>(
    alloc: Global,
    tree: &BTreeMap<Text, V>,
) -> Result<BTreeMap<Text, V>, NoMemory>
    ensures { IfOk result (λ copy. map.from_entries {R = byte_order} copy.entries
        ≡ map.from_entries tree.now.entries) }
{
    let mut copy = BTreeMap::new(alloc);
    'copying: for (key, value) in tree {
        put(&mut copy, key.copy(alloc)?, value.copy(alloc)?)?;
    }
    Ok(copy)
}

impl<V: Drop> TextTree<V> {
    /// The map of nothing.
    pub fn new(alloc: Global) -> TextTree<V>
        ensures { result ≡ map.empty }
    {
        TextTree {
            tree: BTreeMap::new(alloc),
        }
    }

    /// The entries in the byte order of their keys.
    pub fn entries(&self) -> Iter<'_, Text, V>
        ensures { result ≡ map.entries self.now }
    {
        self.tree.iter()
    }

    /// The value at the key.
    pub fn get(&self, key: &Text) -> Option<&V>
        ensures { option_copied result ≡ map.get self.now key.now }
    {
        value_at(&self.tree, key)
    }

    /// Puts the value at the key, in the place of the one that stands there. An `Err` changes nothing.
    pub fn insert(&mut self, key: Text, value: V) -> Result<(), NoMemory>
        ensures ok { OnOk result (self.new ≡ map.insert self.old key value) }
        ensures err { OnErr result (self.new ≡ self.old) }
    {
        put(&mut self.tree, key, value)
    }
}

impl<V: Duplicate + Drop> Duplicate for TextTree<V> {
    fn copy(&self, alloc: Global) -> Result<TextTree<V>, NoMemory> {
        Ok(TextTree {
            tree: copy_of(alloc, &self.tree)?,
        })
    }
}
