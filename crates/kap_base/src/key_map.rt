ghost use Rattle.std.specs.Prelude.{◌≡◌, ◌==◌, ◌&&◌, length, is_some, nat_eq, IfErr, IfOk, IfSome, OnOk, OnErr, IsTrue};
ghost use Rattle.std.specs.Cmp.{and_equiv, and_per, on_equiv, on_per, partial_equiv_from_equiv};
ghost use Rattle.std.specs.FinMap as map;
ghost use Rattle.std.specs.Ordering.{nat_cmp, is_lt};
ghost use Rattle.std.specs.List.Sorted.{IsStableBy};
ghost use Rattle.std.specs.Cmp.Lexicographic.{lists_equiv, lists_per, nat_list_eq_equiv, pointwise, slice_cmp};
ghost use Rattle.std.specs.Option.{option_copied};
ghost use Rattle.kap_base.specs.Maps.{byte_order, with_entries, is_below};
ghost use Rattle.kap_base.specs.Places.{StandsAt, WouldStandAt};

use crate::bytes::are_same;
use crate::duplicate::Duplicate;
use crate::memory::NoMemory;
use crate::text::Text;
use std::alloc::Global;
use std::cmp::Ordering;
use std::marker::Model;

/// A map from texts, in the byte order of its keys.
#[derive(Debug, Drop)]
pub struct KeyMap<V> {
    entries: Vec<(Text, V)>,
}

impl<V> Model for KeyMap<V> {
    ghost use Rattle.std.specs.Prelude.{IsTrue};
    ghost use Rattle.std.specs.FinMap as map;
    ghost use Rattle.std.specs.Ordering.{nat_cmp};
    ghost use Rattle.std.specs.Cmp.Lexicographic.{slice_cmp};
    ghost use Rattle.std.specs.Coded.{coded_list, coded_ℕ};

    ghost Value = { map.FinMap (slice_cmp nat_cmp) V };

    ghost coded = { map.code (coded_list coded_ℕ) V.code };

    ghost view = { λ m. map.from_sorted m.entries.items };

    ghost invariant = { λ m. IsTrue (map.is_sorted (slice_cmp nat_cmp) m.entries.items) };
}

/// Whether the key stands below the first of these, if there is one.
fn is_below<V>(key: &Text, others: &[(Text, V)]) -> bool
    ensures { result ≡ is_below key.now others.now }
{
    match others.first() {
        Some(next) => key.cmp(&next.0).is_lt(),
        None => true,
    }
}

/// Whether each key stands below the next one.
fn rises<V>(entries: &[(Text, V)]) -> bool
    ensures { result ≡ map.is_sorted byte_order entries.now }
{
    let mut rest = entries;
    'passing: while let Some((first, others)) = rest.split_first() {
        if !is_below(&first.0, others) {
            return false;
        }
        rest = others;
    }
    true
}

/// The same entries in the byte order of their keys; those of one key keep their order.
fn sort_entries<V: Drop>(mut entries: Vec<(Text, V)>) -> Result<Vec<(Text, V)>, NoMemory>
    ensures same { IfOk result (λ s. length s.items ≡ length entries.items) }
    ensures stable { IfOk result (λ s. IsStableBy
        (λ x y. is_lt (slice_cmp nat_cmp x.0 y.0)) entries.items s.items) }
{
    entries.sort_by(|one, other| one.0.cmp(&other.0))?;
    Ok(entries)
}

/// The entries put one after the other.
fn last_of_each<V: Drop>(alloc: Global, entries: Vec<(Text, V)>) -> Result<Vec<(Text, V)>, NoMemory>
    ensures rising { IfOk result (λ kept. IsTrue (map.is_sorted byte_order kept.items)) }
    ensures same { IfOk result (λ kept. map.from_sorted kept.items
        ≡ with_entries map.empty entries.items) }
{
    let mut kept = Vec::with_capacity(alloc, entries.len())?;
    'putting: for (key, value) in entries {
        put_behind(&mut kept, key, value)?;
    }
    Ok(kept)
}

/// Where the key stands among entries in byte order, or where it would stand.
fn search<V>(entries: &[(Text, V)], key: &Text) -> Result<usize, usize>
    requires { IsTrue (map.is_sorted byte_order entries.now) }
    ensures stands { IfOk result (λ at. StandsAt key.now entries.now at) }
    ensures absent { IfErr result (λ at. WouldStandAt key.now entries.now at) }
{
    entries.binary_search_by(|entry| entry.0.cmp(key))
}

fn put<V: Drop>(entries: &mut Vec<(Text, V)>, key: Text, value: V) -> Result<(), NoMemory>
    requires { IsTrue (map.is_sorted byte_order entries.old.items) }
    ensures ok { OnOk result (entries.new.items ≡ map.put byte_order key value entries.old.items) }
    ensures err { OnErr result (entries.new.items ≡ entries.old.items) }
{
    match search(entries, &key) {
        Ok(at) => {
            entries[at].1 = value;
            Ok(())
        }
        Err(at) => {
            entries.insert(at, (key, value))?;
            Ok(())
        }
    }
}

/// The same, at one comparison where no key stands above this one.
fn put_behind<V: Drop>(entries: &mut Vec<(Text, V)>, key: Text, value: V) -> Result<(), NoMemory>
    requires { IsTrue (map.is_sorted byte_order entries.old.items) }
    ensures ok { OnOk result (entries.new.items ≡ map.put byte_order key value entries.old.items) }
    ensures err { OnErr result (entries.new.items ≡ entries.old.items) }
{
    let count = entries.len();
    if count == 0 {
        entries.push((key, value))?;
        return Ok(());
    }
    match key.cmp(&entries[count - 1].0) {
        Ordering::Greater => {
            entries.push((key, value))?;
            Ok(())
        }
        Ordering::Equal => {
            entries[count - 1].1 = value;
            Ok(())
        }
        Ordering::Less => put(entries, key, value),
    }
}

/// The value at the key, by a look at each entry.
fn scanned_value<'a, V>(entries: &'a [(Text, V)], key: &Text) -> Option<&'a V>
    ensures { option_copied result ≡ map.find byte_order key.now entries.now }
{
    let mut rest = entries;
    'looking: while let Some((first, others)) = rest.split_first() {
        if are_same(key.bytes(), first.0.bytes()) {
            return Some(&first.1);
        }
        rest = others;
    }
    None
}

/// How many entries are few: to look at each of them takes fewer steps than a search.
const FEW_ENTRIES: usize = 8;

fn value_at<'a, V>(entries: &'a [(Text, V)], key: &Text) -> Option<&'a V>
    requires { IsTrue (map.is_sorted byte_order entries.now) }
    ensures { option_copied result ≡ map.find byte_order key.now entries.now }
{
    if entries.len() <= FEW_ENTRIES {
        return scanned_value(entries, key);
    }
    match search(entries, key) {
        Ok(at) => Some(&entries[at].1),
        Err(_) => None,
    }
}

impl<V: Drop> KeyMap<V> {
    /// The map of nothing.
    pub fn new(alloc: Global) -> KeyMap<V>
        ensures { result ≡ map.empty }
    {
        KeyMap {
            entries: Vec::new(alloc),
        }
    }

    /// The map of these entries, put one after the other: of equal keys the last one counts. It takes n log n
    /// comparisons, and n where the keys rise already.
    pub fn from_entries(alloc: Global, entries: Vec<(Text, V)>) -> Result<KeyMap<V>, NoMemory>
        ensures { IfOk result (λ m. m ≡ with_entries map.empty entries.items) }
    {
        if rises(&entries) {
            return Ok(KeyMap { entries });
        }
        let sorted = sort_entries(entries)?;
        if rises(&sorted) {
            return Ok(KeyMap { entries: sorted });
        }
        Ok(KeyMap {
            entries: last_of_each(alloc, sorted)?,
        })
    }

    /// Its entries, in byte order of the keys.
    pub fn into_entries(self) -> Vec<(Text, V)>
        ensures { result.items ≡ map.entries self }
    {
        self.entries
    }

    /// The map of these entries, or None exactly where their keys don't rise.
    pub fn from_rising(entries: Vec<(Text, V)>) -> Option<KeyMap<V>>
        ensures rises { is_some result ≡ map.is_sorted byte_order entries.items }
        ensures same { IfSome result (λ m. m ≡ map.from_sorted entries.items) }
    {
        if rises(&entries) {
            Some(KeyMap { entries })
        } else {
            None
        }
    }

    /// How many keys it has.
    pub fn len(&self) -> usize
        ensures { result ≡ map.len self.now }
    {
        self.entries.len()
    }

    /// Whether it has no keys.
    pub fn is_empty(&self) -> bool
        ensures { result ≡ (map.len self.now == 0) }
    {
        self.len() == 0
    }

    /// The entries in the byte order of their keys.
    pub fn entries(&self) -> &[(Text, V)]
        ensures { result.now ≡ map.entries self.now }
    {
        &self.entries
    }

    /// Whether something stands at the key.
    pub fn contains_key(&self, key: &Text) -> bool
        ensures { result ≡ map.contains_key self.now key.now }
    {
        self.get(key).is_some()
    }

    /// The value at the key.
    pub fn get(&self, key: &Text) -> Option<&V>
        ensures { option_copied result ≡ map.get self.now key.now }
    {
        value_at(&self.entries, key)
    }

    /// Puts the value at the key, in the place of the one that stands there. An `Err` changes nothing.
    pub fn insert(&mut self, key: Text, value: V) -> Result<(), NoMemory>
        ensures ok { OnOk result (self.new ≡ map.insert self.old key value) }
        ensures err { OnErr result (self.new ≡ self.old) }
    {
        put(&mut self.entries, key, value)?;
        Ok(())
    }
}

fn copies_of<V: Duplicate + Drop>(
    alloc: Global,
    entries: &[(Text, V)],
) -> Result<Vec<(Text, V)>, NoMemory>
    ensures { IfOk result (λ copies. copies.items ≡ entries.now) }
{
    let mut copies = Vec::with_capacity(alloc, entries.len())?;
    'copying: for entry in entries {
        let key = entry.0.copy(alloc)?;
        let value = entry.1.copy(alloc)?;
        copies.push((key, value))?;
    }
    Ok(copies)
}

impl<V: Duplicate + Drop> Duplicate for KeyMap<V> {
    fn copy(&self, alloc: Global) -> Result<KeyMap<V>, NoMemory> {
        Ok(KeyMap {
            entries: copies_of(alloc, &self.entries)?,
        })
    }
}

impl<V: PartialEq> PartialEq for KeyMap<V> {
    ghost eq = { λ m n.
        pointwise (λ p q. pointwise nat_eq p.0 q.0 && V.eq p.1 q.1)
        (map.entries m) (map.entries n) };

    ghost laws = { on_per map.entries (lists_per (and_per
        (on_per (λ p. p.0) (partial_equiv_from_equiv nat_list_eq_equiv))
        (on_per (λ p. p.1) V.laws))) };

    fn eq(&self, other: &KeyMap<V>) -> bool {
        self.entries == other.entries
    }
}

impl<V: Eq> Eq for KeyMap<V> {
    ghost laws = { on_equiv map.entries (lists_equiv (and_equiv
        (on_equiv (λ p. p.0) nat_list_eq_equiv) (on_equiv (λ p. p.1) V.Eq.laws))) };
}
