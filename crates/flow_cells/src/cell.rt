//! A cell whose type says what it keeps.

use crate::gathering::gather;
use crate::loads::load;
use crate::looking::{can_take, is_quiet};
use crate::making::{add_out, make};
use crate::moves::{put, take};
use crate::parts::{CellParts, InEdge, OutEdge};
use crate::saving::{has_kept, put_saved};
use crate::settling::settle;
use kap_base::{Bytes, Msg, NoMemory, Stamp};
use merge_node::PARENT_LIMIT;
use node_core::{Effects, Node};
use std::alloc::Global;
use std::marker::Model;

/// A cell of a net. Its state, what it sent and has to send, its effects and its state at the last barrier
/// are those of its node's function on what it received; its type says so, unless it is spent.
#[derive(Drop)]
pub struct Cell<N: Node> {
    parts: CellParts<N>,
}

impl<N: Node> Model for Cell<N> {
    ghost use Rattle.std.specs.Coded.{codes};
    ghost use Rattle.std.specs.Prelude.{◌≡◌, false};
    ghost use Rattle.kap_base.specs.Maps.{key_map_code};
    ghost use Rattle.flow_cells.specs.contracts.parts.Gathered as gathered_effects;
    ghost use Rattle.flow_cells.specs.declared.parts.CellParts.{CellParts};
    ghost use Rattle.flow_cells.specs.Kept.{Keeps};

    ghost Value = { CellParts N };

    ghost coded = { Prim.hlevel (codes, key_map_code, gathered_effects.the_row.coded) };

    ghost view = { λ c. c.parts };

    ghost invariant = { λ c. c.parts.spent ≡ false → Keeps N.Node c.parts };
}

impl<N: Node> Cell<N> {
    ghost use Rattle.std.specs.Prelude.{◌≡◌, ◌↔◌, ◌<◌, ◌≤◌, false, true, [], ◌∷◌, ◌++◌, length, slice_get, IfOk, IsFalse, IsTrue, Ok, OnErr, OnOk, Some};
    ghost use Rattle.std.specs.List.{AllByRecursion as Each};
    ghost use Rattle.flow_cells.specs.Gathers.{Gathers};
    ghost use Rattle.flow_cells.specs.Kept.{HasKept, Keeps, PutsSaved};
    ghost use Rattle.flow_cells.specs.Loads.{Begins, IsOwn, NothingWaits};
    ghost use Rattle.flow_cells.specs.Looks.{CanTake, IsQuiet};
    ghost use Rattle.flow_cells.specs.Made.{HasNothing, IsFresh, IsMade, IsNothing, IsUnused, one_or_more};
    ghost use Rattle.flow_cells.specs.Moved.{HasMoved};
    ghost use Rattle.flow_cells.specs.Moves.{KeepsOthers, PutsNone, PutsOne, TakesNone, TakesOne};
    ghost use Rattle.flow_cells.specs.Settles.{IsFedBy, Settles};
    ghost use Rattle.flow_cells.specs.declared.parts.InEdge.{InEdge};
    ghost use Rattle.flow_cells.specs.declared.parts.OutEdge.{OutEdge};

    /// A cell of a node with these inputs, on which nothing was received since their load, in the order of
    /// its parents; none for a stream. It is behind the barrier with the stamp `passed`, where its node was
    /// in this state. `NoMemory` comes where an allocation fails.
    pub fn new(alloc: Global, node: N, ins: Vec<InEdge>, passed: Stamp) -> Result<Cell<N>, NoMemory>
        requires limit { length ins.items ≤ PARENT_LIMIT }
        requires fresh { Each IsFresh ins.items }
        requires ports { one_or_more (length ins.items) ≤ N.ports (N.spec node) }
        ensures core { IfOk result (λ cell. IsMade N.Node passed.0 node cell.core) }
        ensures ins { IfOk result (λ cell. cell.ins.items ≡ ins.items) }
        ensures spent { IfOk result (λ cell. cell.spent ≡ false) }
        ensures nothing { IfOk result HasNothing }
        ensures empty { IfOk result (λ cell. Each IsNothing cell.buffer) }
        ensures base { IfOk result (λ cell. cell.base.value.node ≡ node) }
        ensures keeps { IfOk result (Keeps N.Node) }
    {
        Ok(Cell {
            parts: make(alloc, node, ins, passed)?,
        })
    }

    /// Adds an edge to a child, where nothing was received since the load. `NoMemory` comes where an
    /// allocation fails, and changes nothing.
    pub fn add_out(&mut self, out: OutEdge) -> Result<(), NoMemory>
        requires unspent { self.old.spent ≡ false }
        requires nothing { HasNothing self.old }
        requires unused { IsUnused out }
        ensures keeps { Keeps N.Node self.new }
        ensures others { KeepsOthers self.old self.new }
        ensures ok { OnOk result (self.new.core.outs.items ≡ self.old.core.outs.items ++ out ∷ []) }
        ensures err { OnErr result (self.new.core.outs.items ≡ self.old.core.outs.items) }
    {
        add_out(&mut self.parts, out)
    }

    /// Takes a message from an input into its buffer, where none waits to be sent, and handles all that is
    /// then determined. `false` comes only where there is no such input, a message waits to be sent, or the
    /// ring was empty as this call looked. After NoMemory the cell is spent.
    #[inline(always)]
    pub fn take(&mut self, alloc: Global, input: u32) -> Result<bool, NoMemory>
        requires { self.old.spent ≡ false }
        ensures keeps { OnOk result (Keeps N.Node self.new) }
        ensures took { result ≡ Ok true → TakesOne input self.old self.new }
        ensures none { result ≡ Ok false → TakesNone input self.old self.new }
        ensures moved { OnOk result (HasMoved self.old self.new) }
        ensures spent { OnErr result (self.new.spent ≡ true) }
    {
        match take(alloc, &mut self.parts, input) {
            Ok(took) => Ok(took),
            Err(fault) => {
                self.parts.spent = true;
                Err(fault)
            }
        }
    }

    /// Puts the first message that waits at an out on its edge. `false` comes only where there is no such
    /// out, nothing waits there, or the ring was full as this call looked. It takes no memory.
    #[inline(always)]
    pub fn put(&mut self, out: u32) -> bool
        requires { self.old.spent ≡ false }
        ensures keeps { Keeps N.Node self.new }
        ensures put { IsTrue result → PutsOne out self.old self.new }
        ensures none { IsFalse result → PutsNone out self.old self.new }
        ensures moved { HasMoved self.old self.new }
    {
        put(&mut self.parts, out)
    }

    /// A load begins: from now on what is sent, received and done is counted anew, from the state in which
    /// the node is. A stream's cell handles the points and barriers of the load in this call. Whether the
    /// state at the last barrier can be had behind it too, `keeps` says: a state is then spelled before the
    /// next item comes. After NoMemory the cell is spent.
    pub fn load(&mut self, alloc: Global, source: Vec<Msg>, keeps: bool) -> Result<(), NoMemory>
        requires unspent { self.old.spent ≡ false }
        requires empty { Each IsNothing self.old.buffer }
        requires sent { Each NothingWaits self.old.core.outs.items }
        requires gathered { self.old.core.effects ≡ [] }
        requires own { IsOwn self.old.ins.items source.items }
        ensures keeps { OnOk result (Keeps N.Node self.new) }
        ensures begins { OnOk result (Begins source.items keeps self.old self.new) }
        ensures spent { OnErr result (self.new.spent ≡ true) }
    {
        match load(alloc, &mut self.parts, source, keeps) {
            Ok(()) => Ok(()),
            Err(fault) => {
                self.parts.spent = true;
                Err(fault)
            }
        }
    }

    /// Whether a message can be taken from an input, as far as this cell knows: there is such an input, a
    /// message is known on its edge, and none waits to be sent.
    pub fn can_take(&self, input: u32) -> bool
        ensures yes { IsTrue result → CanTake input self.now }
        ensures no { IsFalse result → CanTake input self.now → ⊥ }
    {
        can_take(&self.parts, input)
    }

    /// Whether nothing waits to be sent, and no message is known on the edge of an input.
    pub fn is_quiet(&self) -> bool
        ensures { IsTrue result ↔ IsQuiet self.now }
    {
        is_quiet(&self.parts)
    }

    /// How many inputs it has.
    pub fn inputs(&self) -> usize
        ensures count { result ≡ length self.now.ins.items }
        ensures keeps { self.now.spent ≡ false → Keeps N.Node self.now }
    {
        self.parts.ins.len()
    }

    /// How many outs it has.
    pub fn outs(&self) -> usize
        ensures { result ≡ length self.now.core.outs.items }
    {
        self.parts.core.outs.len()
    }

    /// The number of the parent of an input.
    pub fn parent(&self, input: u32) -> u32
        requires { input < length self.now.ins.items }
        ensures { (e : InEdge) → slice_get self.now.ins.items input ≡ Some e → result ≡ e.from }
    {
        let edge = &self.parts.ins[input as usize];
        edge.from
    }

    /// The number of the child that an out feeds.
    pub fn child(&self, out: u32) -> u32
        requires { out < length self.now.core.outs.items }
        ensures { (o : OutEdge) → slice_get self.now.core.outs.items out ≡ Some o
            → result ≡ o.child }
    {
        let edge = &self.parts.core.outs[out as usize];
        edge.child
    }

    /// Which input of its child an out feeds.
    pub fn child_input(&self, out: u32) -> u32
        requires { out < length self.now.core.outs.items }
        ensures { (o : OutEdge) → slice_get self.now.core.outs.items out ≡ Some o
            → result ≡ o.input }
    {
        let edge = &self.parts.core.outs[out as usize];
        edge.input
    }

    /// Shows both ends of the edge to an input of a child, side by side, what is on it. Nothing is sent or
    /// received.
    pub fn settle(&mut self, child: &mut Cell<N>, input: u32)
        requires { IsFedBy input self.old child.old }
        ensures parent { Keeps N.Node self.old → Keeps N.Node self.new }
        ensures child { Keeps N.Node child.old → Keeps N.Node child.new }
        ensures settles { Settles input self.old child.old self.new child.new }
    {
        settle(&mut self.parts, &mut child.parts, input);
    }

    /// Puts its effects behind others, where they weren't gathered yet. After NoMemory the cell is spent, and
    /// which of them stand in `to` is unknown.
    pub fn gather(&mut self, alloc: Global, to: &mut Effects) -> Result<(), NoMemory>
        requires { self.old.spent ≡ false }
        ensures keeps { OnOk result (Keeps N.Node self.new) }
        ensures gathers { OnOk result (Gathers self.old self.new) }
        ensures given { OnOk result (to.new ≡ to.old ++ self.old.core.effects) }
        ensures spent { OnErr result (self.new.spent ≡ true) }
    {
        match gather(alloc, &mut self.parts, to) {
            Ok(()) => Ok(()),
            Err(fault) => {
                self.parts.spent = true;
                Err(fault)
            }
        }
    }

    /// How many inputs its node dropped and counted.
    pub fn dropped(&self) -> u64
        ensures { result ≡ N.drops (N.state self.now.core.node) }
    {
        self.parts.core.node.dropped()
    }

    /// Whether its node's state at the last barrier that it passed can be had: nothing was fed to the node
    /// since, or the load has it kept.
    pub fn has_kept(&self) -> bool
        ensures yes { IsTrue result → HasKept self.now }
        ensures no { IsFalse result → HasKept self.now → ⊥ }
    {
        has_kept(&self.parts)
    }

    /// Appends the spelling of its node's state at the last barrier that it passed, or at the load where it
    /// passed none since. `NoMemory` comes where an allocation fails, and changes nothing.
    pub fn put_saved(&self, to: &mut Bytes) -> Result<(), NoMemory>
        requires unspent { self.now.spent ≡ false }
        requires kept { HasKept self.now }
        ensures ok { OnOk result (PutsSaved N.Node self.now to.old to.new) }
        ensures err { OnErr result (to.new ≡ to.old) }
    {
        put_saved(&self.parts, to)
    }

    /// The stamp of the last barrier that it passed.
    pub fn passed(&self) -> Stamp
        ensures { result ≡ self.now.core.passed }
    {
        self.parts.core.passed
    }

    /// Whether a call on it failed in the middle.
    pub fn is_spent(&self) -> bool
        ensures { result ≡ self.now.spent }
    {
        self.parts.spent
    }
}
