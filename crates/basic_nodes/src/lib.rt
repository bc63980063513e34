//! The nodes that treat a point by itself, or by how many points of its group came before it.
#![tactic(auto)]

mod build;
mod defaults;
mod deletions;
mod dimensions;
mod group_kind;
mod laws;
mod log;
mod point_kind;
mod selection;
mod shift;
mod stream;
mod words;

pub use build::{deletion_of, regrouping_of, selection_of};
pub use deletions::Deletion;
pub use dimensions::{Dimensions, Grouping, Regrouping};
pub use group_kind::GroupKind;
pub use laws::{dimensions_are_the_names, examples_of_points};
pub use point_kind::PointKind;
pub use selection::{Conditions, Selection};
