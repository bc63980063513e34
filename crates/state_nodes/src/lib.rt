//! The nodes that keep a small state of each group: `stateCount`, `changeDetect`, `difference`,
//! `cumulativeSum` and `elapsed`.
#![tactic(auto)]

mod change_detect;
mod cumulative_sum;
mod difference;
mod elapsed;
mod laws;
mod state_count;
mod words;

pub use change_detect::{ChangeDetect, LastValues};
pub use cumulative_sum::CumulativeSum;
pub use difference::Difference;
pub use elapsed::Elapsed;
pub use laws::{examples_of_states, fields_are_told_apart};
pub use state_count::{Counts, StateCount};
