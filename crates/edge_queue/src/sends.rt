//! What may go to another thread.

ghost use Rattle.std.specs.Prelude.{◌≡◌};

use crate::ends::{Head, Tail};
use kap_base::hand_on;

/// The tail of an edge may go to another thread.
pub fn send_tail(tail: Tail) -> Tail
    ensures { result ≡ tail }
{
    hand_on(tail)
}

/// The head of an edge may go to another thread.
pub fn send_head(head: Head) -> Head
    ensures { result ≡ head }
{
    hand_on(head)
}
