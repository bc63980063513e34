//! An engine: a store on a disk, and the lives of its tasks as they run. Opening it restores them and stores
//! the transitions that are missing; then points are written, and tasks are defined, enabled, disabled and
//! deleted.
#![tactic(auto)]

mod changing;
mod compacting;
mod engine;
mod storing;
mod writing;

pub use engine::Engine;
pub use engine_store::EngineFault;

/// From how many points behind the last snapshot on a write ends with a snapshot.
pub const SNAP_POINTS: u64 = 4_096;
