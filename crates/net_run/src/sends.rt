//! What may go to another thread.

ghost use Rattle.std.specs.Prelude.{◌≡◌};

use crate::runs::NetRun;
use kap_base::hand_on;
use node_core::Node;

/// A run may go to another thread where its nodes may.
pub fn send_run<N: Node + Send>(run: NetRun<N>) -> NetRun<N>
    ensures { result ≡ run }
{
    hand_on(run)
}
