//! The nodes of all kinds that a script can make, and what is planned of a task.
#![tactic(auto)]

mod any;
mod drafts;
mod kinds;
mod laws;
mod script_node;
mod sends;
mod tasks;

pub use any::any_node;
pub use kinds::AnyNode;
pub use laws::{nodes_answer_by_kind, states_are_read_again};
pub use script_node::ScriptNode;
pub use sends::send_any_node;
pub use tasks::{TaskPlan, plan_task};
