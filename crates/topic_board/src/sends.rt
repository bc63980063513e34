//! What may go to another thread.

ghost use Rattle.std.specs.Prelude.{◌≡◌};

use crate::history::{Front, Naming};
use crate::look::Look;
use crate::poster::Poster;
use crate::shown::Shown;
use kap_base::hand_on;
use std::sync::Wait;

/// What was told may go to another thread.
pub fn send_front<J: Naming + Send + Sync>(front: Front<J>) -> Front<J>
    ensures { result ≡ front }
{
    hand_on(front)
}

/// A look may go to another thread.
pub fn send_look<J: Naming + Send + Sync, O: Drop + Send + Sync, T: Shown<J, O> + Send + Sync>(
    look: Look<J, O, T>,
) -> Look<J, O, T>
    ensures { result ≡ look }
{
    hand_on(look)
}

/// A poster may go to another thread, and so may stand under a lock that threads share.
pub fn send_poster<
    J: Naming + Send + Sync,
    O: Drop + Send + Sync,
    T: Shown<J, O> + Send + Sync,
    R: Wait + Drop + Send + Sync,
>(poster: Poster<J, O, T, R>) -> Poster<J, O, T, R>
    ensures { result ≡ poster }
{
    hand_on(poster)
}
