//! What the engine reads from and writes to: traits that say what was read and written, each with a count of
//! its faults; fakes in memory for tests; and adapters over std's readers and writers. And a disk of three
//! files, which says what a crash may leave of it, with its fake and the one over a folder; links, which wait
//! or don't, and the doors at which they come, with their fakes and those over sockets; and clocks, and the
//! gates that workers pass.
#![tactic(auto)]

mod adapters;
mod clock;
mod crash;
mod dir_disk;
mod disk;
mod disk_calls;
mod disk_files;
mod disk_work;
mod door;
mod failed;
mod gate;
mod laws;
mod link;
mod lock_file;
mod mem_disk;
mod mem_door;
mod mem_link;
mod mem_poll_link;
mod mem_sink;
mod mem_source;
mod patience;
mod pick;
mod poll_link;
mod sink;
mod socket_door;
mod socket_link;
mod source;
mod try_link;

pub use adapters::{ReadSource, WriteSink};
pub use clock::{Clock, FixedClock, RealClock};
pub use dir_disk::DirDisk;
pub use disk::{Disk, Part};
pub use disk_work::{DiskCall, DiskWork};
pub use door::Door;
pub use failed::Failed;
pub use gate::{Gate, NoGate};
pub use laws::known_bytes;
pub use link::Link;
pub use lock_file::LockFile;
pub use mem_disk::MemDisk;
pub use mem_door::MemDoor;
pub use mem_link::MemLink;
pub use mem_poll_link::MemPollLink;
pub use mem_sink::MemSink;
pub use mem_source::MemSource;
pub use patience::Patience;
pub use pick::Pick;
pub use poll_link::PollLink;
pub use sink::{Sink, write_all};
pub use socket_door::{SocketDoor, is_shortage};
pub use socket_link::SocketLink;
pub use source::Source;
pub use try_link::{Stop, TryLink};
