//! The names of a script, replaced by what they stand for.
#![tactic(auto)]

mod binder;
mod fault;
mod lambda;
mod law;
mod names;
mod nodes;
mod values;

pub use binder::bind;
pub use fault::VarFault;
pub use law::{bound_as_written, bound_where_well_named, first_fault_of_names};
pub use nodes::{Arg, Args, Bound, Prop, Props, RawNode, RawNodes};
