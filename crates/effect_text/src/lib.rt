//! The text of what the nodes of tasks did: lines of logged points, of transitions of alerts, and of how many
//! points were dropped.
#![tactic(auto)]

mod dropped;
mod effects;
mod law;
mod merging;
mod names;
mod printing;

pub use dropped::put_dropped;
pub use effects::{put_effects, tell_effects};
pub use law::{text_goes_on, text_has_names_by_life};
pub use merging::put_printed;
pub use names::TaskNames;
pub use printing::{Printed, print_lines};
