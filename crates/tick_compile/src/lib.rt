//! Scripts, compiled to tasks (Kapacitor 1.6 TICKscript node reference).
#![tactic(auto)]

mod alerts;
mod changes;
mod filters;
mod given;
mod joins;
mod kind;
mod law;
mod names;
mod node_fault;
mod nodes;
mod props;
mod readers;
mod script_fault;
mod script_texts;
mod scripts;
mod selects;
mod sorts;
mod states;
mod tasks;
mod templates;
mod typing;
mod untyped;
mod windows;

pub use law::scripts_have_one_answer;
pub use script_fault::ScriptFault;
pub use script_texts::script_text;
pub use scripts::{compile, compile_tree, read_tree};
pub use tasks::Task;
pub use templates::templates_are_read;
