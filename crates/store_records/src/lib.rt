//! The records of a store: their bytes, what a store holds behind them, and which may follow.
#![tactic(auto)]

mod batches;
mod checked;
mod following;
mod fronts;
mod laws;
mod lines;
mod rec;
mod records;
mod states;
mod task;
mod transitions;

pub use checked::{Checked, check_record, known_record};
pub use following::{find_task, has_task, is_batch, may_define, take_transitions};
pub use laws::{held_laws, record_laws};
pub use rec::{Rec, Transitions};
pub use records::{batch_body, read_record, record_body};
pub use task::{Life, LifeNumbers, Snapshot, StoredTask};
pub use transitions::spelled_len;
