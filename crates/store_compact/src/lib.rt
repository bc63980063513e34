//! Which records of a store stay where it is compacted, and that what stays stands for the same.
#![tactic(auto)]

mod deciding;
mod laws;

pub use deciding::is_kept;
pub use laws::{staying_laws, staying_rows};
