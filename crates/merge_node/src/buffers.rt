//! A buffer for each parent, and the message that is next.

ghost use Rattle.std.specs.Prelude.{◌≡◌, ◌↔◌, ◌<◌, ◌≤◌, false, [], ◌∷◌, length, replicate, IfOk, IsNone, IsTrue, OnErr, OnOk};
ghost use Rattle.merge_node.specs.Buffers.{has_empty, left_of, next, next_by, put, said, taken};
ghost use Rattle.merge_node.specs.Looking.{are_clear};

use crate::PARENT_LIMIT;
use crate::fronts::{Front, least_front, pop_all, pop_at};
use crate::queue::Queue;
use kap_base::{Msg, NoMemory};
use std::alloc::Global;
use std::marker::Model;

/// What a node's parents have sent and isn't merged yet, which contracts see as a list for each parent.
#[derive(Drop)]
pub struct MergeBuf {
    buffers: Vec<Queue>,
}

impl Model for MergeBuf {
    ghost use Rattle.std.specs.Coded.{codes};
    ghost use Rattle.std.specs.Prelude.{List, ◌<◌, ◌≤◌, length};
    ghost use Rattle.kap_base.specs.Maps.{key_map_code};
    ghost use Rattle.kap_base.specs.declared.items.Msg.{Msg};
    ghost use Rattle.merge_node.specs.declared.TheConstants.{PARENT_LIMIT};

    ghost Value = { List (List Msg) };

    ghost coded = { Prim.hlevel (codes, key_map_code) };

    ghost view = { λ b. b.buffers.items };

    ghost invariant = { λ b. (0 < length b.buffers.items)
        × (length b.buffers.items ≤ PARENT_LIMIT) };
}

/// An empty buffer for each parent.
fn empty_buffers(alloc: Global, parents: u32) -> Result<Vec<Queue>, NoMemory>
    ensures { IfOk result (λ buffers. buffers.items ≡ replicate parents []) }
{
    let mut buffers = Vec::new(alloc);
    'adding: for _ in 0..parents {
        buffers.push(Queue::new(alloc))?;
    }
    Ok(buffers)
}

/// Puts a message behind the others of its parent.
fn put_at(buffers: &mut [Queue], parent: u32, msg: Msg) -> Result<(), NoMemory>
    requires { parent < length buffers.old }
    ensures ok { OnOk result (buffers.new ≡ put parent msg buffers.old) }
    ensures err { OnErr result (buffers.new ≡ buffers.old) }
{
    buffers[parent as usize].push(msg)
}

/// A message, behind the number of its parent.
fn entry(parent: u32, msg: Option<Msg>) -> Option<(u32, Msg)>
    ensures { result ≡ said (taken parent msg []) }
{
    Some((parent, msg?))
}

/// Takes what a look at the fronts has found: the least item, or else the barrier of all.
fn take_found(buffers: &mut [Queue], best: Option<Front>) -> Option<(u32, Msg)>
    requires full { has_empty buffers.old ≡ false }
    requires within { (f : Front) → best ≡ Some f → f.parent < length buffers.old }
    ensures gives { result ≡ said (next_by best buffers.old) }
    ensures left { buffers.new ≡ left_of (next_by best buffers.old) buffers.old }
{
    match best {
        Some(front) => entry(front.parent, pop_at(buffers, front.parent)),
        None => entry(0, pop_all(buffers)),
    }
}

/// Takes the message that is next.
fn take_next(buffers: &mut [Queue]) -> Option<(u32, Msg)>
    requires { length buffers.old ≤ PARENT_LIMIT }
    ensures gives { result ≡ said (next buffers.old) }
    ensures left { buffers.new ≡ left_of (next buffers.old) buffers.old }
{
    let Some(best) = least_front(buffers) else {
        return None;
    };
    take_found(buffers, best)
}

/// Whether there is one queue alone, and no message in it.
fn are_clear(buffers: &[Queue]) -> bool
    ensures { result ≡ are_clear buffers.now }
{
    match buffers.split_first() {
        Some((first, others)) => first.first().is_none() && others.is_empty(),
        None => false,
    }
}

impl MergeBuf {
    /// Nothing buffered, for 1 to 64 parents. `NoMemory` comes where an allocation fails.
    pub fn new(alloc: Global, parents: u32) -> Result<MergeBuf, NoMemory>
        requires some { 0 < parents }
        requires limit { parents ≤ PARENT_LIMIT }
        ensures { IfOk result (λ buffers. buffers ≡ replicate parents []) }
    {
        Ok(MergeBuf {
            buffers: empty_buffers(alloc, parents)?,
        })
    }

    /// Whether it is for one parent, of which nothing is buffered: then a message that comes is next at once.
    pub fn is_clear(&self) -> bool
        ensures { IsTrue result ↔ (self.now ≡ [] ∷ []) }
    {
        are_clear(&self.buffers)
    }

    /// Puts a message behind the others of its parent, which are numbered from 0. `NoMemory` comes where an
    /// allocation fails, and changes nothing.
    pub fn put(&mut self, parent: u32, msg: Msg) -> Result<(), NoMemory>
        requires { parent < length self.old }
        ensures ok { OnOk result (self.new ≡ put parent msg self.old) }
        ensures err { OnErr result (self.new ≡ self.old) }
    {
        put_at(&mut self.buffers, parent, msg)
    }

    /// Takes the message that is next, and gives it behind the number of its parent: where each parent has
    /// one buffered, the front item least by stamp and parent, or where all fronts are barriers, that of
    /// parent 0, and one is taken from each. `None` comes where a parent has nothing buffered, and changes
    /// nothing. It takes one look at each front, and no memory.
    pub fn next(&mut self) -> Option<(u32, Msg)>
        ensures gives { result ≡ said (next self.old) }
        ensures left { self.new ≡ left_of (next self.old) self.old }
        ensures none { IsNone result ↔ IsTrue (has_empty self.old) }
    {
        take_next(&mut self.buffers)
    }
}
