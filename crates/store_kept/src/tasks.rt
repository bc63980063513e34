//! The tasks of a store, as a record changes them.

ghost use Rattle.std.specs.Prelude.{◌≡◌, ℕ, ◌<◌, ◌≤◌, IfOk, length, position, vec_capacity, vec_len};
ghost use Rattle.std.specs.List.{position_or_len};
ghost use Rattle.std.specs.Option.{option_to_list};
ghost use Rattle.std.specs.Ordering.{is_lt};
ghost use Rattle.kap_base.specs.Maps.{byte_order};
ghost use Rattle.store_records.specs.Held.{defined, is_enabled, put_task, remove_task, set_enabled, tasks_after};

use kap_base::{Duplicate, NoMemory, Text};
use std::alloc::Global;
use store_records::{Rec, StoredTask, find_task};

fn is_before(id: &Text, other: &StoredTask) -> bool
    ensures { result ≡ is_lt (byte_order id.now other.now.id) }
{
    id.cmp(&other.id).is_lt()
}

fn first_behind(tasks: &[StoredTask], id: &Text) -> Option<usize>
    ensures { result ≡ position (λ other. is_lt (byte_order id.now other.id)) tasks.now }
{
    tasks.iter().position(|other| is_before(id, other))
}

/// Where the first task stands whose id is greater, or their end.
fn place_of(tasks: &[StoredTask], id: &Text) -> usize
    ensures place { result
        ≡ position_or_len (λ other. is_lt (byte_order id.now other.id)) tasks.now }
    ensures within { result ≤ length tasks.now }
{
    match first_behind(tasks, id) {
        Some(at) => at,
        None => tasks.len(),
    }
}

fn put_task(tasks: &mut Vec<StoredTask>, task: StoredTask)
    requires { vec_len tasks.old < vec_capacity tasks.old }
    ensures { tasks.new.items ≡ put_task task tasks.old.items }
{
    let at = place_of(tasks, &task.id);
    let _ = tasks.insert(at, task);
}

fn remove_task(tasks: &mut Vec<StoredTask>, id: &Text)
    ensures { tasks.new.items ≡ remove_task id.now tasks.old.items }
{
    if let Some(at) = find_task(tasks, id) {
        let _task = tasks.remove(at);
    }
}

fn set_enabled(tasks: &mut Vec<StoredTask>, id: &Text, enabled: bool)
    ensures { tasks.new.items ≡ set_enabled id.now enabled tasks.old.items }
{
    match find_task(tasks, id) {
        Some(at) => tasks[at].enabled = enabled,
        None => {}
    }
}

/// Whether the task of this id is there and enabled.
pub(crate) fn is_enabled(tasks: &[StoredTask], id: &Text) -> bool
    ensures { result ≡ is_enabled id.now tasks.now }
{
    match find_task(tasks, id) {
        Some(at) => tasks[at].enabled,
        None => false,
    }
}

/// The task that the record, whose gate stands at this offset, defines.
pub(crate) fn defined(alloc: Global, at: u64, rec: &Rec) -> Result<Option<StoredTask>, NoMemory>
    ensures { IfOk result (λ task. option_to_list task ≡ defined at rec.now) }
{
    match rec {
        Rec::Define {
            id,
            script,
            enabled,
        } => Ok(Some(StoredTask {
            id: id.copy(alloc)?,
            script: script.copy(alloc)?,
            enabled: *enabled,
            define_at: at,
        })),
        _ => Ok(None),
    }
}

/// Changes the tasks by the record, which defines this task, if any.
pub(crate) fn change_tasks(tasks: &mut Vec<StoredTask>, rec: &Rec, task: Option<StoredTask>)
    requires { vec_len tasks.old < vec_capacity tasks.old }
    ensures { (at : ℕ) → option_to_list task ≡ defined at rec.now
        → tasks.new.items ≡ tasks_after at rec.now tasks.old.items }
{
    match rec {
        Rec::Define { .. } => {
            if let Some(task) = task {
                put_task(tasks, task);
            }
        }
        Rec::Enable { id } => set_enabled(tasks, id, true),
        Rec::Disable { id } => set_enabled(tasks, id, false),
        Rec::Delete { id } => remove_task(tasks, id),
        _ => {}
    }
}
