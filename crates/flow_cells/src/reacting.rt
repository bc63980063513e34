//! What a cell does with a message.

ghost use Rattle.std.specs.Prelude.{◌≡◌, ℕ, ◌<◌, ◌≤◌, None, OnOk, length};
ghost use Rattle.std.specs.List.{AllZip};
ghost use Rattle.kap_base.specs.declared.items.Msg.TheVariants as messages;
ghost use Rattle.merge_node.specs.Buffers.{next, put};
ghost use Rattle.flow_cells.specs.Handled.{Handles, Reacts, Waits};

use crate::outs::{push_each, push_items};
use crate::parts::Core;
use crate::saving::keep_state;
use kap_base::{Item, Msg, NoMemory, Stamp};
use merge_node::MergeBuf;
use node_core::{Items, Node};
use std::alloc::Global;
use std::mem;

impl<N: Node> Core<N> {
    /// Feeds the node an item, and has what it gives wait at each out.
    fn feed(&mut self, alloc: Global, parent: u32, item: Item) -> Result<(), NoMemory>
        requires { parent < N.ports (N.spec self.old.node) }
        ensures spec { N.spec self.new.node ≡ N.spec self.old.node }
        ensures gathered { self.new.gathered ≡ self.old.gathered }
        ensures keeps { self.new.keeps ≡ self.old.keeps }
        ensures outs { OnOk result (AllZip Waits self.old.outs.items self.new.outs.items) }
        ensures reacts { OnOk result (Reacts N.Node self.old parent (messages.Item item) self.new) }
    {
        let mut given = mem::replace(&mut self.given, Items::new(alloc));
        given.clear();
        keep_state(&self.node, &mut self.saved, self.keeps, self.clean)?;
        self.clean = false;
        self.node
            .feed(alloc, parent, item, &mut given, &mut self.effects)?;
        self.given = push_items(alloc, &mut self.outs, given)?;
        Ok(())
    }

    /// Passes a barrier: the state there is the node's as long as nothing is fed to it. Has the barrier wait
    /// at each out.
    fn pass(&mut self, alloc: Global, stamp: Stamp) -> Result<(), NoMemory>
        ensures spec { N.spec self.new.node ≡ N.spec self.old.node }
        ensures gathered { self.new.gathered ≡ self.old.gathered }
        ensures keeps { self.new.keeps ≡ self.old.keeps }
        ensures outs { OnOk result (AllZip Waits self.old.outs.items self.new.outs.items) }
        ensures reacts { OnOk result ((parent : ℕ)
            → Reacts N.Node self.old parent (messages.Barrier stamp) self.new) }
    {
        self.passed = stamp;
        self.clean = true;
        push_each(alloc, &mut self.outs, Msg::Barrier(stamp))?;
        Ok(())
    }

    /// Handles one message.
    pub(crate) fn react(&mut self, alloc: Global, parent: u32, msg: Msg) -> Result<(), NoMemory>
        requires { parent < N.ports (N.spec self.old.node) }
        ensures spec { N.spec self.new.node ≡ N.spec self.old.node }
        ensures gathered { self.new.gathered ≡ self.old.gathered }
        ensures keeps { self.new.keeps ≡ self.old.keeps }
        ensures outs { OnOk result (AllZip Waits self.old.outs.items self.new.outs.items) }
        ensures reacts { OnOk result (Reacts N.Node self.old parent msg self.new) }
    {
        match msg {
            Msg::Item(item) => self.feed(alloc, parent, item)?,
            Msg::Barrier(stamp) => self.pass(alloc, stamp)?,
        }
        Ok(())
    }
}

/// Handles all that is determined.
fn handle_all<N: Node>(
    alloc: Global,
    core: &mut Core<N>,
    buffer: &mut MergeBuf,
) -> Result<(), NoMemory>
    requires { length buffer.old ≤ N.ports (N.spec core.old.node) }
    ensures outs { OnOk result (AllZip Waits core.old.outs.items core.new.outs.items) }
    ensures gathered { OnOk result (core.new.gathered ≡ core.old.gathered) }
    ensures stuck { OnOk result (next buffer.new ≡ None) }
    ensures handles { OnOk result (Handles N.Node core.old buffer.old core.new buffer.new) }
{
    'handling: while let Some((parent, msg)) = buffer.next() {
        core.react(alloc, parent, msg)?;
    }
    Ok(())
}

/// Handles a message that came at an input, and all that is then determined.
#[inline(always)]
pub(crate) fn handle<N: Node>(
    alloc: Global,
    core: &mut Core<N>,
    buffer: &mut MergeBuf,
    input: u32,
    msg: Msg,
) -> Result<(), NoMemory>
    requires within { input < length buffer.old }
    requires ports { length buffer.old ≤ N.ports (N.spec core.old.node) }
    ensures outs { OnOk result (AllZip Waits core.old.outs.items core.new.outs.items) }
    ensures gathered { OnOk result (core.new.gathered ≡ core.old.gathered) }
    ensures stuck { OnOk result (next buffer.new ≡ None) }
    ensures handles { OnOk result
        (Handles N.Node core.old (put input msg buffer.old) core.new buffer.new) }
{
    if buffer.is_clear() {
        // The message is next at once: it need not be buffered.
        return core.react(alloc, input, msg);
    }
    buffer.put(input, msg)?;
    handle_all(alloc, core, buffer)
}
