//! What is planned of a stored life.

ghost use Rattle.std.specs.Prelude.{◌≡◌, ◌+◌, ◌≤◌, IfErr, IfOk, IfSome, OnOk, length};
ghost use Rattle.kap_base.specs.declared.limits.TheConstants.{SCRIPT_LIMIT};
ghost use Rattle.lambda_types.specs.Builds.{AtMostOneMore};
ghost use Rattle.task_run.specs.Plans.{IsPlan};
ghost use Rattle.engine_runs.specs.Faults.{IsWhy};
ghost use Rattle.engine_runs.specs.Scripts.{IsPlanned};

use crate::fault::{RunFault, fault_at};
use effect_text::TaskNames;
use kap_base::Duplicate;
use lambda_types::Patterns;
use node_set::{ScriptNode, TaskPlan, plan_task};
use std::alloc::Global;
use store_records::Life;
use task_run::LifePlan;
use tick_compile::compile;

/// The names, and the plan, of the life with this number, by its script: the plan's nodes are in their first
/// states.
pub(crate) fn plan_life<P: Patterns, N: ScriptNode>(
    alloc: Global,
    number: u32,
    life: &Life,
    pats: &mut P,
) -> Result<(TaskNames, LifePlan<N>), RunFault>
    requires { length life.now.script ≤ SCRIPT_LIMIT }
    ensures planned { IfOk result (IsPlanned N.planned N.spec N.state N.first number life.now) }
    ensures plan { IfOk result (λ made. IsPlan N.spec N.ports N.life N.number made.1) }
    ensures why { IfErr result
        (IsWhy (P.refusals pats.old) (P.refusals pats.new) (P.refused pats.new) life.now) }
    ensures kept { OnOk result (P.refusals pats.new ≡ P.refusals pats.old) }
    ensures counted { AtMostOneMore (P.refusals pats.old) (P.refusals pats.new) }
{
    let task = match compile(alloc, life.script.bytes(), pats) {
        Ok(task) => task,
        Err(fault) => return Err(fault_at(life.define_at, &fault)),
    };
    let TaskPlan { plan, names } = plan_task(alloc, &life.task, number, task.graph)?;
    let id = life.task.copy(alloc)?;
    Ok((TaskNames { id, nodes: names }, plan))
}

/// The number of the life behind so many others.
pub(crate) fn next_number(count: usize) -> Option<u32>
    ensures { IfSome result (λ number. number ≡ count + 1) }
{
    match u32::try_from(count) {
        Ok(count) => count.checked_add(1),
        Err(_) => None,
    }
}
