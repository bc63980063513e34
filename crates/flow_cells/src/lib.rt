//! The cells of a net. A cell has a node, what its parents sent and isn't merged yet, what it gives out and
//! hasn't sent yet, and the state in which the node was at the last barrier that it passed. What it keeps
//! stands in its type, whoever moves it.
#![tactic(auto)]

mod cell;
mod gathering;
mod laws;
mod loads;
mod looking;
mod making;
mod moves;
mod outs;
mod parts;
mod reacting;
mod saving;
mod sends;
mod settling;

pub use cell::Cell;
pub use laws::runs_are_folds;
pub use parts::{CellParts, Core, Gathered, InEdge, OutEdge};
pub use sends::send_cell;
