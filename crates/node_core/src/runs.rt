ghost use Rattle.std.specs.Prelude.{◌≡◌, ℕ, ◌++◌, OnOk};
ghost use Rattle.node_core.specs.Meaning.{given};
ghost use Rattle.node_core.specs.Cut.{AllAtPorts, InOrder, UpTo, inputs_up_to};

use crate::node::Node;
use kap_base::{Effect, Item, ItemList, NoMemory};
use std::alloc::Global;

/// Feeds a whole list to a node in its first state. `up_to`: what is given up to a stamp is what the inputs
/// up to it give. After NoMemory the node can't go on, and what stands in `out` and `effects` is unknown.
pub fn run<N: Node>(
    alloc: Global,
    node: &mut N,
    inputs: Vec<(u32, Item)>,
    out: &mut ItemList<Item>,
    effects: &mut ItemList<Effect>,
) -> Result<(), NoMemory>
    requires first { N.state node.old ≡ N.first (N.spec node.old) }
    requires ports { AllAtPorts (N.ports (N.spec node.old)) inputs.items }
    ensures spec { OnOk result (N.spec node.new ≡ N.spec node.old) }
    ensures items { OnOk result
        (out.new ≡ out.old ++ (given (N.answer (N.spec node.old)) inputs.items).items) }
    ensures effects { OnOk result
        (effects.new ≡ effects.old ++ (given (N.answer (N.spec node.old)) inputs.items).effects) }
    ensures dropped { OnOk result
        (N.drops (N.state node.new) ≡ (given (N.answer (N.spec node.old)) inputs.items).drops) }
    ensures up_to { (s : ℕ) → InOrder inputs.items
        → UpTo s (given (N.answer (N.spec node.old)) (inputs_up_to s inputs.items))
        (given (N.answer (N.spec node.old)) inputs.items) }
{
    'feeding: for (port, item) in inputs {
        node.feed(alloc, port, item, out, effects)?;
    }
    Ok(())
}
