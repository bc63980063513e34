//! The nodes that choose of a batch (Kapacitor 1.6: InfluxQL nodes): `sum`, `count`, `min`, `max`, `first`,
//! `last`, `spread`, `distinct`, `top` and `bottom`.
#![tactic(auto)]

mod choices;
mod distinct;
mod laws;
mod picks;
mod readings;
mod results;
mod selection;

pub use laws::{
    examples_of_selects, first_goes_before_all, ranks_are_sorted, results_are_of_their_group,
    values_are_told_once,
};
pub use selection::Selection;
