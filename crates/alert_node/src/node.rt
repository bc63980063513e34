//! What an alert does, of what a script hands to it.

ghost use Rattle.std.specs.Prelude.{◌≡◌, IfOk};
ghost use Rattle.alert_node.specs.Alerts.{alert_of};

use crate::alert::Alert;
use crate::templates::{id_or_default, message_or_default, topic_or_default};
use kap_base::{Duplicate, NoMemory, Text};
use lambda_types::Lambda;
use std::alloc::Global;
use task_graph::AlertSpec;

/// What an alert does that a script hands this to, in the task of this id, as the node of this name, as
/// `alert2`. The default topic and the templates name the task, and the default topic the node. `NoMemory`
/// comes where an allocation fails.
pub fn alert_of(
    alloc: Global,
    task: &Text,
    name: &Text,
    spec: AlertSpec<Lambda>,
) -> Result<Alert, NoMemory>
    ensures { IfOk result (λ alert. alert ≡ alert_of task.now name.now spec) }
{
    Ok(Alert {
        expressions: spec.levels,
        resets: spec.resets,
        id: id_or_default(alloc, spec.id)?,
        message: message_or_default(alloc, spec.message)?,
        topic: topic_or_default(alloc, spec.topic, task, name)?,
        task: task.copy(alloc)?,
        state_changes_only: spec.state_changes_only,
        no_recoveries: spec.no_recoveries,
    })
}
