ghost use Rattle.std.specs.Prelude.{◌≡◌, ◌++◌, ◌<◌, [], IfOk, IsTrue, OnOk, OnErr, length, map as each, take};
ghost use Rattle.std.specs.FinMap as map;
ghost use Rattle.std.specs.Map.Iter.{deref_pair};
ghost use Rattle.kap_base.specs.Maps.{byte_order, is_below};
ghost use Rattle.node_core.specs.Groups.{turn_of};
ghost use Rattle.node_core.specs.Keys.{group_key};
ghost use Rattle.node_core.specs.Places.{IsCellOf};
ghost use Rattle.state_code.specs.Laws.{bytes_spelled};
ghost use Rattle.state_code.specs.Maps.{FitsMap, spell_map, read_map, map_spelled};
ghost use Rattle.state_code.specs.Spelling.{FitsBytes, FitsList, FitsPair, spell_bytes, spell_list, spell_pair, read_bytes};

use crate::key::Key;
use crate::rule::Rule;
use crate::said::Said;
use indexmap::IndexMap;
use kap_base::{Bytes, Duplicate, ItemList, NoMemory, Point, Shared, are_same};
use state_code::{CodeFault, Cursor, Spelled, put_u32};
use std::alloc::Global;
use std::hash::{BuildHasherDefault, DefaultHasher};
use std::marker::Model;

/// The cells by their keys, in the order in which their groups came.
type Cells<C> = IndexMap<Key, C, BuildHasherDefault<DefaultHasher>>;

/// What is kept of each group, under the group's key. Contracts see a map in byte order of the keys.
///
/// A cell is found by the hash of its key, which is SipHash-1-3 under a fixed key.
#[derive(Drop)]
pub struct Table<C> {
    cells: Cells<C>,
    /// Room for the key that is looked up.
    looked_up: Key,
    /// Where the last key's cell is.
    last: usize,
}

impl<C> Model for Table<C> {
    ghost use Rattle.std.specs.FinMap as map;
    ghost use Rattle.std.specs.Ordering.{nat_cmp};
    ghost use Rattle.std.specs.Cmp.Lexicographic.{slice_cmp};
    ghost use Rattle.std.specs.Coded.{coded_list, coded_ℕ};

    ghost Value = { map.FinMap (slice_cmp nat_cmp) C };

    ghost coded = { map.code (coded_list coded_ℕ) C.code };

    ghost view = { λ t. map.from_entries t.cells.entries };
}

impl<C: Drop> Table<C> {
    /// No groups.
    pub fn new(alloc: Global) -> Table<C>
        ensures { result ≡ map.empty }
    {
        Table {
            cells: IndexMap::with_hasher(alloc, BuildHasherDefault::new()),
            looked_up: Key::new(alloc),
            last: 0,
        }
    }
}

/// Whether the key's cell is at this place.
fn is_at<C>(cells: &Cells<C>, at: usize, key: &Key) -> bool
    ensures { IsTrue result → (first : C)
        → IsCellOf cells.now.entries cells.now.entries key.now first at }
{
    if cells.len() <= at {
        return false;
    }
    match cells.get_index(at) {
        Some(entry) => are_same(entry.0.bytes(), key.bytes()),
        None => false,
    }
}

/// Where the key's cell is, by its hash; a key that has none gets the first one.
fn hashed_at<R: Rule>(
    rule: &R,
    alloc: Global,
    cells: &mut Cells<R::Cell>,
    key: &Key,
) -> Result<usize, NoMemory>
    ensures ok { IfOk result
        (IsCellOf cells.old.entries cells.new.entries key.now (R.kept rule.now [])) }
    ensures err { OnErr result (cells.new.entries ≡ cells.old.entries) }
{
    match cells.get_index_of(key) {
        Some(at) => Ok(at),
        None => {
            let at = cells.len();
            let key = key.copy(alloc)?;
            cells.insert(key, rule.first(alloc))?;
            Ok(at)
        }
    }
}

/// The place behind this one, and the first behind the last of so many.
fn place_behind(at: usize, count: usize) -> usize {
    match at.checked_add(1) {
        Some(next) if next < count => next,
        _ => 0,
    }
}

/// Where the key's cell is; a key that has none gets the first one. Points often come from one group after
/// the other in the same order, or from one group, so the place behind the last key's and the last key's are
/// looked at before the key is hashed.
fn cell_at<R: Rule>(
    rule: &R,
    alloc: Global,
    cells: &mut Cells<R::Cell>,
    last: usize,
    key: &Key,
) -> Result<usize, NoMemory>
    ensures ok { IfOk result
        (IsCellOf cells.old.entries cells.new.entries key.now (R.kept rule.now [])) }
    ensures err { OnErr result (cells.new.entries ≡ cells.old.entries) }
{
    let next = place_behind(last, cells.len());
    if is_at(cells, next, key) {
        return Ok(next);
    }
    if is_at(cells, last, key) {
        return Ok(last);
    }
    hashed_at(rule, alloc, cells, key)
}

/// The keys and their cells, in byte order of the keys.
fn in_byte_order<C>(cells: &Cells<C>) -> Result<Vec<(&Key, &C)>, NoMemory>
    ensures { IfOk result (λ order. each deref_pair order.items
        ≡ map.entries (map.from_entries {R = byte_order} cells.now.entries)) }
{
    let mut order: Vec<(&Key, &C)> = cells.iter().collect(*cells.allocator())?;
    order.sort_unstable_by(|one, other| one.0.cmp(other.0));
    Ok(order)
}

/// Appends the number of cells as a `u32`, and each cell's key and then the cell.
fn put_cells<C: Spelled>(cells: &[(&Key, &C)], to: &mut Bytes) -> Result<(), NoMemory>
    ensures bytes { OnOk result (to.new ≡ to.old
        ++ spell_list (spell_pair spell_bytes C.spell) (each deref_pair cells.now)) }
    ensures fits { OnOk result
        (FitsList (FitsPair FitsBytes C.fits) (each deref_pair cells.now)) }
    ensures before { take (length to.old) to.new ≡ to.old }
{
    let Ok(count) = u32::try_from(cells.len()) else {
        return Err(NoMemory);
    };
    put_u32(to, count)?;
    'putting: for pair in cells {
        put_cell(pair.0, pair.1, to)?;
    }
    Ok(())
}

/// Appends a key and then its cell.
fn put_cell<C: Spelled>(key: &Key, cell: &C, to: &mut Bytes) -> Result<(), NoMemory>
    ensures bytes { OnOk result (to.new ≡ to.old
        ++ spell_pair spell_bytes C.spell (key.now, cell.now)) }
    ensures fits { OnOk result (FitsPair FitsBytes C.fits (key.now, cell.now)) }
    ensures before { take (length to.old) to.new ≡ to.old }
{
    key.append_spelling(to)?;
    cell.append_spelling(to)
}

/// Whether the keys rise.
fn are_rising<C>(cells: &[(Key, C)]) -> bool
    ensures { result ≡ map.is_sorted byte_order cells.now }
{
    let mut rest = cells;
    'passing: while let Some((first, others)) = rest.split_first() {
        if !is_below(&first.0, others) {
            return false;
        }
        rest = others;
    }
    true
}

/// Whether the key stands below the first of these, if there is one.
fn is_below<C>(key: &Key, others: &[(Key, C)]) -> bool
    ensures { result ≡ is_below key.now others.now }
{
    match others.first() {
        Some(next) => key.cmp(&next.0).is_lt(),
        None => true,
    }
}

/// The cells by their keys, which rise.
fn by_key<C: Drop>(alloc: Global, cells: Vec<(Key, C)>) -> Result<Cells<C>, NoMemory>
    requires { IsTrue (map.is_sorted byte_order cells.items) }
    ensures { IfOk result
        (λ m. map.from_entries {R = byte_order} m.entries ≡ map.from_sorted cells.items) }
{
    Ok(cells.into_iter().collect(alloc)?)
}

/// The number of groups as a `u32`, and in byte order of the keys each group's key and then its cell.
impl<C: Spelled + Drop> Spelled for Table<C> {
    ghost fits = { FitsMap FitsBytes C.fits };

    ghost spell = { spell_map spell_bytes C.spell };

    ghost read = { read_map byte_order read_bytes C.read };

    ghost spelled = { map_spelled byte_order bytes_spelled C.spelled };

    fn append_spelling(&self, to: &mut Bytes) -> Result<(), NoMemory> {
        put_cells(&in_byte_order(&self.cells)?, to)
    }

    fn read_spelling(alloc: Global, from: &mut Cursor) -> Result<Table<C>, CodeFault> {
        let cells = <ItemList<(Key, C)> as Spelled>::read_spelling(alloc, from)?.into_items();
        if !are_rising(&cells) {
            return Err(CodeFault::At(from.offset()));
        }
        Ok(Table {
            cells: by_key(alloc, cells)?,
            looked_up: Key::new(alloc),
            last: 0,
        })
    }
}

/// Feeds a point to the cell of its group. A group that is there is found without a new text.
pub(crate) fn feed_cell<R: Rule>(
    rule: &mut R,
    alloc: Global,
    table: &mut Table<R::Cell>,
    port: u32,
    point: Shared<Point>,
) -> Result<Said, NoMemory>
    requires { port < R.ports rule.old }
    ensures rule { rule.new ≡ rule.old }
    ensures cells { OnOk result (table.new ≡ map.insert table.old (group_key point)
        (turn_of (R.kept rule.old []) (R.step rule.old) table.old port point).state) }
    ensures said { IfOk result (λ said. said
        ≡ (turn_of (R.kept rule.old []) (R.step rule.old) table.old port point).said) }
{
    table.looked_up.become_key_of(point.value())?;
    let at = cell_at(rule, alloc, &mut table.cells, table.last, &table.looked_up)?;
    table.last = at;
    let cell = &mut table.cells[at];
    rule.feed(alloc, cell, port, point)
}
