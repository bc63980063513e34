//! Nodes that number their effects.

ghost use Rattle.flow_core.specs.Gathering.{NumbersEffects};
ghost use Rattle.net_run.specs.Numbering.{any_numbers};

use node_core::Node;
use node_set::AnyNode;

/// A node that numbers its effects: where the stamps of its inputs don't fall, the numbers of its effects
/// with one stamp rise.
pub trait NumberingNode: Node {
    ghost numbers: { (p : Self.Spec) → NumbersEffects (Self.answer p) };
}

impl NumberingNode for AnyNode {
    ghost numbers = { any_numbers };
}
