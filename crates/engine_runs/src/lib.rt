//! The lives of a store as they run: their scripts are compiled to nodes of a net, points go through it, and
//! the transitions of their alerts are told. It knows no disk.
#![tactic(auto)]

mod changing;
mod fault;
mod gathering;
mod laws;
mod planning;
mod restoring;
mod runs;
mod spans;
mod turning;

pub use changing::NextLife;
pub use fault::{RunFault, fault_at};
pub use laws::{
    effects_come_behind, lives_go_on_later, lives_lie_behind_records, lives_run_later,
    open_lives_run,
};
pub use runs::EngineRun;
