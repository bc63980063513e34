//! The cells of one life: the nodes of one graph, with their edges.
#![tactic(auto)]

mod gathering;
mod laws;
mod life;
mod listing;
mod loads;
mod making;
mod marks;
mod moves;
mod playing;
mod sends;
mod settling;
mod steps;

pub use laws::{graphs_have_streams, plans_are_graphs};
pub use life::Life;
pub use sends::send_life;
pub use steps::Step;
