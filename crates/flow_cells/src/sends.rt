//! What may go to another thread.

ghost use Rattle.std.specs.Prelude.{◌≡◌};

use crate::cell::Cell;
use kap_base::hand_on;
use node_core::Node;

/// A cell may go to another thread where its node may.
pub fn send_cell<N: Node + Send>(cell: Cell<N>) -> Cell<N>
    ensures { result ≡ cell }
{
    hand_on(cell)
}
