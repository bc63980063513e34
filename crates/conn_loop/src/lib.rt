//! Many connections on one thread: a loop that polls those that may go on, what tells which ones may, the doors
//! at which links come without waiting, fakes of both in memory, and those over sockets.
#![tactic(auto)]

mod finished;
mod laws;
mod link_loop;
mod mem_ready;
mod mem_try_door;
mod mio_door;
mod mio_link;
mod mio_ready;
mod numbers;
mod passing;
mod ready;
mod serving;
mod single;
mod slot;
mod try_door;

pub use finished::{AddFault, Finished};
pub use laws::many_links;
pub use link_loop::{LINKS, Loop};
pub use mem_ready::MemReady;
pub use mem_try_door::MemTryDoor;
pub use mio_door::MioDoor;
pub use mio_link::MioLink;
pub use mio_ready::MioReady;
pub use ready::Ready;
pub use serving::serve_door;
pub use single::{Single, SingleEnd};
pub use try_door::TryDoor;
