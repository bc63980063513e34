//! The outs of a cell.

ghost use Rattle.std.specs.Prelude.{◌≡◌, ◌<◌, List, [], ◌∷◌, map, IsFalse, IsTrue, OnOk};
ghost use Rattle.kap_base.specs.declared.items.Msg.{Msg};
ghost use Rattle.edge_queue.specs.Edges.{free};
ghost use Rattle.edge_queue.specs.Moves.{Puts};
ghost use Rattle.flow_cells.specs.Kept.{IsGiven};
ghost use Rattle.flow_cells.specs.Outs.{LooksOn, SendsOn, has_unsent, item_msgs, with_unsent};

use crate::parts::OutEdge;
use edge_queue::Tail;
use kap_base::{Duplicate, Msg, NoMemory};
use node_core::Items;
use std::alloc::Global;

/// Has a copy of a message wait at each out.
#[inline(always)]
fn push_copies(alloc: Global, outs: &mut [OutEdge], msg: &Msg) -> Result<(), NoMemory>
    ensures { OnOk result (outs.new ≡ map (with_unsent (msg.now ∷ [])) outs.old) }
{
    'pushing: for out in outs.iter_mut() {
        out.unsent.push(msg.copy(alloc)?)?;
    }
    Ok(())
}

/// Has a message wait at each of some outs.
#[inline(always)]
fn push_all(alloc: Global, outs: &mut [OutEdge], msg: Msg) -> Result<(), NoMemory>
    ensures { OnOk result (outs.new ≡ map (with_unsent (msg ∷ [])) outs.old) }
{
    let Some((first, others)) = outs.split_first_mut() else {
        return Ok(());
    };
    push_copies(alloc, others, &msg)?;
    first.unsent.push(msg)?;
    Ok(())
}

/// Has a message wait at each out.
#[inline(always)]
pub(crate) fn push_each(alloc: Global, outs: &mut Vec<OutEdge>, msg: Msg) -> Result<(), NoMemory>
    ensures { OnOk result (outs.new.items ≡ map (with_unsent (msg ∷ [])) outs.old.items) }
{
    push_all(alloc, outs, msg)?;
    Ok(())
}

/// Has items wait at each out, in order, and gives their list back, whose room can be used again.
pub(crate) fn push_items(
    alloc: Global,
    outs: &mut Vec<OutEdge>,
    items: Items,
) -> Result<Items, NoMemory>
    ensures { OnOk result (outs.new.items ≡ map (with_unsent (item_msgs items)) outs.old.items) }
{
    let mut rest = items.into_items();
    rest.reverse();
    'pushing: while let Some(item) = rest.pop() {
        push_each(alloc, outs, Msg::Item(item))?;
    }
    Ok(Items::from_items(rest))
}

/// Whether a message waits at an out.
pub(crate) fn has_unsent(outs: &[OutEdge]) -> bool
    ensures { result ≡ has_unsent outs.now }
{
    let mut rest = outs;
    'passing: while let Some((first, others)) = rest.split_first() {
        if first.unsent.first().is_some() {
            return true;
        }
        rest = others;
    }
    false
}

/// Puts a message on an edge that has a free place.
fn put(tail: &mut Tail, msg: Msg)
    requires { 0 < free tail.old }
    ensures { Puts msg tail.old tail.new }
{
    let _put = tail.put(msg);
}

impl OutEdge {
    /// Puts the first message that waits on the edge. `false` comes where none waits, or the ring was full as
    /// this call looked.
    pub(crate) fn send(&mut self) -> bool
        ensures sent { IsTrue result → SendsOn self.old self.new }
        ensures kept { IsFalse result → LooksOn self.old self.new }
        ensures given { (given : List Msg) → IsGiven given self.old → IsGiven given self.new }
    {
        if !self.tail.has_room() {
            return false;
        }
        let Some(msg) = self.unsent.pop() else {
            return false;
        };
        put(&mut self.tail, msg);
        true
    }
}
