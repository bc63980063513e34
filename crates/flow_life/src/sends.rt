//! What may go to another thread.

ghost use Rattle.std.specs.Prelude.{◌≡◌};

use crate::life::Life;
use kap_base::hand_on;
use node_core::Node;

/// A life may go to another thread where its node may.
pub fn send_life<N: Node + Send>(life: Life<N>) -> Life<N>
    ensures { result ≡ life }
{
    hand_on(life)
}
