//! The graph of a task: its nodes, what each was given, and how they hang together.
#![tactic(auto)]

mod graph;
mod laws;
mod sorts;
mod spec;

pub use graph::{Flow, Graph, GraphFault, NODE_LIMIT, PARENT_LIMIT};
pub use laws::{graphs_hang_together, limits_are_numbers, lowest_fault_is_first};
pub use sorts::{
    Count, ElapsedUnit, Line, Measurement, Name, Period, SPAN_LIMIT, Span, UNIT_LIMIT,
};
pub use spec::{
    AlertSpec, Conditions, DefaultSetting, DefaultValue, DeleteSetting, Dims, ElapsedSpec,
    EvalResult, EvalSpec, FieldSpec, Fill, FromSpec, GroupBySpec, Ids, JoinSpec, Keep, LogSpec,
    NodeSpec, NodeSpecs, Select, SelectSpec, SharedNames, Spec, StateCountSpec, WindowSpec,
};
