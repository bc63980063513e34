//! The tasks of a store.

ghost use Rattle.std.specs.Prelude.{◌≡◌};
ghost use Rattle.std.specs.Option.{option_copied};
ghost use Rattle.store_records.specs.Held.{task_of};

use kap_base::Text;
use store_records::StoredTask;

/// The task with this id.
pub(crate) fn task_of<'a>(tasks: &'a [StoredTask], id: &Text) -> Option<&'a StoredTask>
    ensures { option_copied result ≡ task_of id.now tasks.now }
{
    let mut rest = tasks;
    'looking: while let Some((task, others)) = rest.split_first() {
        if task.id.is_same(id) {
            return Some(task);
        }
        rest = others;
    }
    None
}
