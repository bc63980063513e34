//! What a store keeps in memory of its records: its tasks and lives, its numbers, the last snapshot, and the
//! places of some records.
#![tactic(auto)]

mod kept;
mod lives;
mod parts;
mod taking;
mod tasks;

pub use kept::{Kept, Mark};
pub use parts::{Parts, commit, commit_batch, prepare, prepare_batch, prepare_count};
pub use taking::take_body;
