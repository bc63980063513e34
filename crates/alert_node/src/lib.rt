//! The node `alert`: each point has a level, and events tell of it.
#![tactic(auto)]

mod alert;
mod events;
mod laws;
mod levels;
mod node;
mod templates;
mod watch;

pub use alert::Alert;
pub use laws::{counts_are_evaluations, examples_of_alerts, texts_are_cut};
pub use node::alert_of;
pub use watch::{Ask, Counts, Watch};
