//! Whether a record stays, by what is kept in memory.

ghost use Rattle.std.specs.Prelude.{◌≡◌, ◌==◌, ◌&&◌, ◌||◌};
ghost use Rattle.store_records.specs.Held.{is_called, is_enabled};
ghost use Rattle.store_kept.specs.Keeping.{kept_of};
ghost use Rattle.store_compact.specs.Deciding.{is_kept};
ghost use Rattle.store_compact.specs.Staying.{has_lived, is_snap_at, is_there};

use kap_base::Text;
use store_kept::Kept;
use store_records::{Life, Rec, Snapshot, StoredTask, find_task, has_task};

/// Whether the task has this id, and the record at this offset defined it.
fn is_defined_at(task: &StoredTask, id: &Text, at: u64) -> bool
    ensures { result ≡ (is_called id.now task.now && (task.now.define_at == at)) }
{
    if task.id != *id {
        return false;
    }
    task.define_at == at
}

fn is_there(tasks: &[StoredTask], id: &Text, at: u64) -> bool
    ensures { result ≡ is_there id.now at tasks.now }
{
    tasks.iter().any(|task| is_defined_at(task, id, at))
}

fn is_of_task_at(life: &Life, at: u64) -> bool
    ensures { result ≡ (life.now.define_at == at) }
{
    life.define_at == at
}

fn has_lived(lives: &[Life], at: u64) -> bool
    ensures { result ≡ has_lived at lives.now }
{
    lives.iter().any(|life| is_of_task_at(life, at))
}

/// Whether the task is there in the end, or had a life.
fn is_worth(all: &Kept, id: &Text, at: u64) -> bool
    ensures { result ≡ (is_there id.now at (kept_of all.now).tasks
        || has_lived at (kept_of all.now).lives) }
{
    if is_there(&all.tasks, id, at) {
        return true;
    }
    has_lived(&all.lives, at)
}

fn is_enabled(tasks: &[StoredTask], id: &Text) -> bool
    ensures { result ≡ is_enabled id.now tasks.now }
{
    match find_task(tasks, id) {
        Some(at) => tasks[at].enabled,
        None => false,
    }
}

fn is_snap_at(snap: &Option<Snapshot>, at: u64) -> bool
    ensures { result ≡ is_snap_at at snap.now }
{
    match snap {
        Some(snap) => snap.at == at,
        None => false,
    }
}

/// Whether the record stays where a store is compacted, whose gate stands at this offset in the old log. Of all
/// records `all` is kept, and `kept` of those that stay so far.
pub fn is_kept(all: &Kept, kept: &Kept, at: u64, rec: &Rec) -> bool
    ensures { result ≡ is_kept (kept_of all.now) (kept_of kept.now) at rec.now }
{
    match rec {
        Rec::Define { id, .. } => is_worth(all, id, at),
        Rec::Enable { id } => !is_enabled(&kept.tasks, id),
        Rec::Disable { id } => is_enabled(&kept.tasks, id),
        Rec::Delete { id } => has_task(&kept.tasks, id),
        Rec::Batch { .. } => true,
        Rec::Trans(_) => true,
        Rec::Snap { .. } => is_snap_at(&all.snap, at),
    }
}
