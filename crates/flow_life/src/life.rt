//! A life whose type says what its cells keep.

use crate::gathering::{gather, gather_from};
use crate::listing::list_steps;
use crate::loads::load;
use crate::making::add_cell;
use crate::playing::{at_rest, play, step};
use crate::settling::{are_unspent, settle_all};
use crate::steps::Step;
use edge_queue::CAPACITY_LIMIT;
use flow_cells::Cell;
use kap_base::{Msg, NoMemory, Stamp};
use merge_node::PARENT_LIMIT;
use node_core::{Effects, Node};
use std::alloc::Global;
use std::marker::Model;
use std::mem;

/// The cells of one graph. Its type says that each keeps what a cell keeps, that both ends know what is on
/// each edge, and that the last load ended with a barrier, unless it is spent.
#[derive(Drop)]
pub struct Life<N: Node> {
    // In the order of its graph's nodes.
    cells: Vec<Cell<N>>,
    // Whether a call on it failed in the middle, or its cells were taken out and aren't settled.
    spent: bool,
}

impl<N: Node> Model for Life<N> {
    ghost use Rattle.std.specs.Coded.{codes};
    ghost use Rattle.std.specs.Prelude.{◌≡◌, false};
    ghost use Rattle.kap_base.specs.Maps.{key_map_code};
    ghost use Rattle.flow_cells.specs.contracts.parts.Gathered as gathered_effects;
    ghost use Rattle.flow_life.specs.Lives.{IsLife, LifeValue};

    ghost Value = { LifeValue N };

    ghost coded = { Prim.hlevel (codes, key_map_code, gathered_effects.the_row.coded) };

    ghost view = { λ l. record { cells = l.cells.items; spent = l.spent } };

    ghost invariant = { λ l. l.spent ≡ false → IsLife N.Node l.cells.items };
}

impl<N: Node> Life<N> {
    ghost use Rattle.std.specs.Prelude.{◌≡◌, ◌+◌, ◌++◌, ◌<◌, ◌≤◌, false, true, [], ◌∷◌, length, map, IfOk, IsFalse, IsTrue, List, OnErr, OnOk, Some, slice_get};
    ghost use Rattle.std.specs.List.{AllByRecursion as Each, AllZip};
    ghost use Rattle.kap_base.specs.declared.items.Msg.{Msg};
    ghost use Rattle.merge_node.specs.Merge.{IsClosed};
    ghost use Rattle.flow_cells.specs.Gathers.{Gathers};
    ghost use Rattle.flow_cells.specs.Made.{HasNothing, one_or_more};
    ghost use Rattle.flow_cells.specs.Rooms.{HasRoom};
    ghost use Rattle.flow_cells.specs.declared.parts.CellParts.{CellParts};
    ghost use Rattle.flow_life.specs.Gathers.{effects_of};
    ghost use Rattle.flow_life.specs.Left.{left_of};
    ghost use Rattle.flow_life.specs.Listing.{ends_of, steps_from};
    ghost use Rattle.flow_life.specs.Lives.{IsLife};
    ghost use Rattle.flow_life.specs.Loads.{IsGathered, LoadsFrom, has_inner, plan_now};
    ghost use Rattle.flow_life.specs.Loose.{HasLooked, IsLoose};
    ghost use Rattle.flow_life.specs.Making.{HasCarriedNothing, IsClean, nodes_of, passed_of};
    ghost use Rattle.flow_life.specs.Nodes.{gathered_of, specs_of};
    ghost use Rattle.flow_life.specs.Playing.{Plays};
    ghost use Rattle.flow_life.specs.Rooms.{rooms_of};
    ghost use Rattle.flow_life.specs.Settling.{Grows};
    ghost use Rattle.flow_life.specs.Steps.{AreQuiet, HasEmptyBuffers, IsEnabled, SomeEnabled, moves_of, one_if};
    ghost use Rattle.flow_life.specs.Streams.{AreStreams, CarriesPrefixes, CarriesStreams, plans_of, stream_length};
    ghost use Rattle.flow_life.specs.Trying.{IsGatheredBut, SameEnabled, mover};
    ghost use Rattle.flow_life.specs.Wired.{IsUnspent, parents_of, sum_of_all};

    /// A life without cells.
    pub fn new(alloc: Global) -> Life<N>
        ensures cells { result.cells ≡ [] }
        ensures spent { result.spent ≡ false }
    {
        Life {
            cells: Vec::new(alloc),
            spent: false,
        }
    }

    /// Adds a cell of a node with these parents, which stand before it, where nothing was received since the
    /// load. The edges to it have room for just `capacity` messages, 1 to 65,536. The last barrier that the
    /// new cell passed has the stamp `passed`. The life is at rest with nothing to gather, and each cell's
    /// saved state is its state. After NoMemory the life is spent.
    pub fn add(
        &mut self,
        alloc: Global,
        node: N,
        parents: &[u32],
        capacity: u32,
        passed: Stamp,
    ) -> Result<(), NoMemory>
        requires unspent { self.old.spent ≡ false }
        requires nothing { Each HasNothing self.old.cells }
        requires earlier { Each (λ p. p < length self.old.cells) parents.now }
        requires parents { length parents.now ≤ PARENT_LIMIT }
        requires ports { one_or_more (length parents.now) ≤ N.ports (N.spec node) }
        requires some { 0 < capacity }
        requires limit { capacity ≤ CAPACITY_LIMIT }
        ensures nothing { OnOk result (Each HasNothing self.new.cells) }
        ensures nodes { OnOk result (nodes_of self.new.cells
            ≡ nodes_of self.old.cells ++ node ∷ []) }
        ensures parents { OnOk result (parents_of self.new.cells
            ≡ parents_of self.old.cells ++ parents.now ∷ []) }
        ensures passed { OnOk result (passed_of self.new.cells
            ≡ passed_of self.old.cells ++ passed.0 ∷ []) }
        ensures rest { OnOk result (AreQuiet self.new.cells) }
        ensures gathered { OnOk result (Each IsGathered self.new.cells) }
        ensures clean { OnOk result (Each IsClean self.new.cells) }
        ensures carried { OnOk result (Each HasCarriedNothing self.old.cells
            → Each HasCarriedNothing self.new.cells) }
        ensures room { OnOk result (Each (HasRoom capacity) self.old.cells
            → Each (HasRoom capacity) self.new.cells) }
        ensures unspent { OnOk result (self.new.spent ≡ false) }
        ensures spent { OnErr result (self.new.spent ≡ true) }
    {
        match add_cell(alloc, &mut self.cells, node, parents, capacity, passed) {
            Ok(()) => Ok(()),
            Err(fault) => {
                self.spent = true;
                Err(fault)
            }
        }
    }

    /// Makes a step. `false` comes exactly where it isn't enabled: there is no such cell, input or out, the
    /// edge is empty or a message waits to be sent (take), or none waits or the edge has no free place (put);
    /// then what can be made is as before. It has effects of the cell that it moves alone. After NoMemory the
    /// life is spent.
    pub fn step(&mut self, alloc: Global, next: Step) -> Result<bool, NoMemory>
        requires { self.old.spent ≡ false }
        ensures life { OnOk result (IsLife N.Node self.new.cells) }
        ensures prefixes { OnOk result (CarriesPrefixes N.Node self.new.cells) }
        ensures plans { OnOk result (plans_of N.Node self.new.cells
            ≡ plans_of N.Node self.old.cells) }
        ensures specs { OnOk result (specs_of N.Node self.new.cells
            ≡ specs_of N.Node self.old.cells) }
        ensures gathered { OnOk result (gathered_of self.new.cells ≡ gathered_of self.old.cells) }
        ensures rooms { OnOk result (rooms_of self.new.cells ≡ rooms_of self.old.cells) }
        ensures yes { IfOk result (λ made. IsTrue made → IsEnabled self.old.cells next) }
        ensures no { IfOk result (λ made. IsFalse made → IsEnabled self.old.cells next → ⊥) }
        ensures grows { IfOk result (λ made. IsTrue made
            → Grows next self.old.cells self.new.cells) }
        ensures count { IfOk result (λ made. moves_of self.new.cells
            ≡ moves_of self.old.cells + one_if made) }
        ensures ends { OnOk result (ends_of self.new.cells ≡ ends_of self.old.cells) }
        ensures left { IfOk result (λ made. left_of N.Node self.old.cells
            ≡ left_of N.Node self.new.cells + one_if made) }
        ensures still { IfOk result (λ made. IsFalse made
            → SameEnabled self.old.cells self.new.cells) }
        ensures others { OnOk result (Each IsGathered self.old.cells
            → IsGatheredBut (mover next) self.new.cells) }
        ensures idle { IfOk result (λ made. IsFalse made
            → Each IsGathered self.old.cells → Each IsGathered self.new.cells) }
        ensures unspent { OnOk result (self.new.spent ≡ false) }
        ensures spent { OnErr result (self.new.spent ≡ true) }
    {
        match step(alloc, &mut self.cells, next) {
            Ok(made) => Ok(made),
            Err(fault) => {
                self.spent = true;
                Err(fault)
            }
        }
    }

    /// Tries steps in their order: makes each one that is enabled at its turn, and counts those. After
    /// NoMemory the life is spent.
    pub fn play(&mut self, alloc: Global, steps: &[Step]) -> Result<u64, NoMemory>
        requires { self.old.spent ≡ false }
        ensures prefixes { OnOk result (CarriesPrefixes N.Node self.new.cells) }
        ensures plans { OnOk result (plans_of N.Node self.new.cells
            ≡ plans_of N.Node self.old.cells) }
        ensures specs { OnOk result (specs_of N.Node self.new.cells
            ≡ specs_of N.Node self.old.cells) }
        ensures gathered { OnOk result (gathered_of self.new.cells ≡ gathered_of self.old.cells) }
        ensures rooms { OnOk result (rooms_of self.new.cells ≡ rooms_of self.old.cells) }
        ensures plays { IfOk result (λ made. Plays steps.now self.old.cells made self.new.cells) }
        ensures count { IfOk result (λ made. moves_of self.new.cells
            ≡ moves_of self.old.cells + made) }
        ensures unspent { OnOk result (self.new.spent ≡ false) }
        ensures spent { OnErr result (self.new.spent ≡ true) }
    {
        match play(alloc, &mut self.cells, steps) {
            Ok(made) => Ok(made),
            Err(fault) => {
                self.spent = true;
                Err(fault)
            }
        }
    }

    /// Whether nothing is pending, unsent, buffered or on an edge. While it isn't so, some step is enabled;
    /// where it is so, each edge has carried its stream.
    pub fn at_rest(&self) -> bool
        requires { self.now.spent ≡ false }
        ensures life { IsLife N.Node self.now.cells }
        ensures rest { IsTrue result → AreQuiet self.now.cells }
        ensures busy { IsFalse result → AreQuiet self.now.cells → ⊥ }
        ensures empty { IsTrue result → Each HasEmptyBuffers self.now.cells }
        ensures streams { IsTrue result → CarriesStreams N.Node self.now.cells }
        ensures twice { IsTrue result → (streams : List (List Msg))
            → AreStreams (plans_of N.Node self.now.cells) streams
            → moves_of self.now.cells
            ≡ sum_of_all (stream_length streams) (parents_of self.now.cells)
            + sum_of_all (stream_length streams) (parents_of self.now.cells) }
        ensures none { IsTrue result → left_of N.Node self.now.cells ≡ 0 }
        ensures alive { IsFalse result → SomeEnabled self.now.cells }
    {
        at_rest(&self.cells)
    }

    /// A load begins, with points and barriers, one behind each point: from now on what is sent, received and
    /// done is counted anew, each node from the state in which it is. Streams handle the points and barriers
    /// in this call. After NoMemory the life is spent.
    pub fn load(&mut self, alloc: Global, source: Vec<Msg>) -> Result<(), NoMemory>
        requires unspent { self.old.spent ≡ false }
        requires rest { AreQuiet self.old.cells }
        requires gathered { Each IsGathered self.old.cells }
        requires closed { IsClosed source.items }
        ensures kept { IsLife N.Node self.old.cells }
        ensures loads { OnOk result (AllZip (LoadsFrom (has_inner source.items) source.items)
            self.old.cells self.new.cells) }
        ensures plans { OnOk result (plans_of N.Node self.new.cells
            ≡ map (plan_now N.Node source.items) self.old.cells) }
        ensures specs { OnOk result (specs_of N.Node self.new.cells
            ≡ specs_of N.Node self.old.cells) }
        ensures prefixes { OnOk result (CarriesPrefixes N.Node self.new.cells) }
        ensures ends { OnOk result (ends_of self.new.cells ≡ ends_of self.old.cells) }
        ensures count { OnOk result (moves_of self.new.cells ≡ 0) }
        ensures unspent { OnOk result (self.new.spent ≡ false) }
        ensures spent { OnErr result (self.new.spent ≡ true) }
    {
        match load(alloc, &mut self.cells, source) {
            Ok(()) => Ok(()),
            Err(fault) => {
                self.spent = true;
                Err(fault)
            }
        }
    }

    /// Puts the effects of all cells behind others, where they weren't gathered yet. After NoMemory the life
    /// is spent, and which of them stand in `to` is unknown.
    pub fn gather(&mut self, alloc: Global, to: &mut Effects) -> Result<(), NoMemory>
        requires { self.old.spent ≡ false }
        ensures gathers { OnOk result (AllZip Gathers self.old.cells self.new.cells) }
        ensures gathered { OnOk result (Each IsGathered self.new.cells) }
        ensures plans { OnOk result (plans_of N.Node self.new.cells
            ≡ plans_of N.Node self.old.cells) }
        ensures specs { OnOk result (specs_of N.Node self.new.cells
            ≡ specs_of N.Node self.old.cells) }
        ensures count { OnOk result (moves_of self.new.cells ≡ moves_of self.old.cells) }
        ensures given { OnOk result (to.new ≡ to.old ++ effects_of self.old.cells) }
        ensures unspent { OnOk result (self.new.spent ≡ false) }
        ensures spent { OnErr result (self.new.spent ≡ true) }
    {
        match gather(alloc, &mut self.cells, to) {
            Ok(()) => Ok(()),
            Err(fault) => {
                self.spent = true;
                Err(fault)
            }
        }
    }

    /// The same where one cell alone may have effects that weren't gathered yet: it looks at this cell and no
    /// other.
    pub fn gather_from(
        &mut self,
        alloc: Global,
        cell: u32,
        to: &mut Effects,
    ) -> Result<(), NoMemory>
        requires unspent { self.old.spent ≡ false }
        requires cell { cell < length self.old.cells }
        requires others { IsGatheredBut cell self.old.cells }
        ensures life { OnOk result (IsLife N.Node self.new.cells) }
        ensures gathers { OnOk result (AllZip Gathers self.old.cells self.new.cells) }
        ensures gathered { OnOk result (Each IsGathered self.new.cells) }
        ensures plans { OnOk result (plans_of N.Node self.new.cells
            ≡ plans_of N.Node self.old.cells) }
        ensures specs { OnOk result (specs_of N.Node self.new.cells
            ≡ specs_of N.Node self.old.cells) }
        ensures count { OnOk result (moves_of self.new.cells ≡ moves_of self.old.cells) }
        ensures given { OnOk result (to.new ≡ to.old ++ effects_of self.old.cells) }
        ensures unspent { OnOk result (self.new.spent ≡ false) }
        ensures spent { OnErr result (self.new.spent ≡ true) }
    {
        match gather_from(alloc, &mut self.cells, cell, to) {
            Ok(()) => Ok(()),
            Err(fault) => {
                self.spent = true;
                Err(fault)
            }
        }
    }

    /// Adds its steps behind others, its cells numbered from here on: cell by cell the takes by input, then
    /// the puts by out. NoMemory comes where an allocation fails or a number has more than 32 bits; some are
    /// there then.
    pub fn list_steps(&self, from: usize, to: &mut Vec<Step>) -> Result<(), NoMemory>
        ensures { OnOk result (to.new.items
            ≡ to.old.items ++ steps_from from (ends_of self.now.cells)) }
    {
        list_steps(&self.cells, from, to)
    }

    /// Takes the cells out, so that each may move by itself. The life is spent until they are back and
    /// settled. It takes no memory.
    pub fn take_cells(&mut self, alloc: Global) -> Vec<Cell<N>>
        ensures cells { result.items ≡ self.old.cells }
        ensures life { self.old.spent ≡ false → IsLife N.Node self.old.cells }
        ensures none { self.new.cells ≡ [] }
        ensures spent { self.new.spent ≡ true }
    {
        self.spent = true;
        mem::replace(&mut self.cells, Vec::new(alloc))
    }

    /// Puts cells back in place of its own. The life is spent until they are settled. It takes no memory.
    pub fn put_cells(&mut self, cells: Vec<Cell<N>>)
        ensures cells { self.new.cells ≡ cells.items }
        ensures spent { self.new.spent ≡ true }
    {
        self.spent = true;
        self.cells = cells;
    }

    /// Whether no call on a cell failed in the middle, wherever it was made.
    pub fn has_unspent_cells(&self) -> bool
        ensures yes { IsTrue result → Each IsUnspent self.now.cells }
        ensures no { IsFalse result → Each IsUnspent self.now.cells → ⊥ }
    {
        are_unspent(&self.cells)
    }

    /// Settles each edge, where cells moved by themselves and no call on one failed: both ends are shown what
    /// is on it, and the cells are those of a life again. After NoMemory the life is spent.
    pub fn settle(&mut self) -> Result<(), NoMemory>
        requires unspent { Each IsUnspent self.old.cells }
        requires loose { IsLoose N.Node self.old.cells }
        ensures life { OnOk result (IsLife N.Node self.new.cells) }
        ensures looked { OnOk result (AllZip HasLooked self.old.cells self.new.cells) }
        ensures plans { OnOk result (plans_of N.Node self.new.cells
            ≡ plans_of N.Node self.old.cells) }
        ensures specs { OnOk result (specs_of N.Node self.new.cells
            ≡ specs_of N.Node self.old.cells) }
        ensures gathered { OnOk result (gathered_of self.new.cells ≡ gathered_of self.old.cells) }
        ensures unspent { OnOk result (self.new.spent ≡ false) }
        ensures spent { OnErr result (self.new.spent ≡ true) }
    {
        self.spent = true;
        settle_all(&mut self.cells)?;
        self.spent = false;
        Ok(())
    }

    /// How many cells it has.
    pub fn cells(&self) -> usize
        ensures count { result ≡ length self.now.cells }
        ensures life { self.now.spent ≡ false → IsLife N.Node self.now.cells }
    {
        self.cells.len()
    }

    /// How many inputs the node of a cell dropped and counted.
    pub fn dropped(&self, cell: u32) -> u64
        requires { cell < length self.now.cells }
        ensures { (c : CellParts N) → slice_get self.now.cells cell ≡ Some c
            → result ≡ N.drops (N.state c.core.node) }
    {
        let cell = &self.cells[cell as usize];
        cell.dropped()
    }

    /// Its cells, in the order of their numbers.
    pub fn all_cells(&self) -> &[Cell<N>]
        ensures { result.now ≡ self.now.cells }
    {
        self.cells.as_slice()
    }

    /// Whether a call on it failed in the middle, or its cells were taken out and aren't settled.
    pub fn is_spent(&self) -> bool
        ensures { result ≡ self.now.spent }
    {
        self.spent
    }

    /// What a life keeps, unless it is spent.
    pub fn keeps(&self)
        ensures { self.now.spent ≡ false → IsLife N.Node self.now.cells }
    {
        let _ = &self.cells;
    }
}
