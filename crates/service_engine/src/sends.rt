//! What may go to another thread.

ghost use Rattle.std.specs.Prelude.{◌≡◌};

use crate::disk_engine::DiskEngine;
use kap_base::hand_on;
use kap_io::Disk;
use lambda_types::Patterns;
use std::thread::Threads;

/// An engine on a disk may go to another thread where its disk and its patterns may.
pub fn send_engine<D: Disk + Drop + Send, P: Patterns + Drop + Send, R: Threads + Send>(
    engine: DiskEngine<D, P, R>,
) -> DiskEngine<D, P, R>
    ensures { result ≡ engine }
{
    hand_on(engine)
}
