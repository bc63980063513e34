//! What may go to another thread.

ghost use Rattle.std.specs.Prelude.{◌≡◌};

use crate::kinds::AnyNode;
use kap_base::hand_on;

/// A node of any kind may go to another thread.
pub fn send_any_node(node: AnyNode) -> AnyNode
    ensures { result ≡ node }
{
    hand_on(node)
}
