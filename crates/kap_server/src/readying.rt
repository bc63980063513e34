//! Tasks, made ready to run.

ghost use Rattle.std.specs.Prelude.{◌≡◌, ◌≢◌, ◌+◌, ◌<◌, ◌^◌, map, true, IfErr, OnOk, length, nat_lt, string_bytes};
ghost use Rattle.std.specs.List.{list_any};
ghost use Rattle.std.specs.Str.{bytes_eq};
ghost use Rattle.kap_base.specs.Words.{HasRisen};
ghost use Rattle.kap_server.specs.Pairs.{AreNoTasks, IsNoTask, is_among};
ghost use Rattle.kap_server.specs.Readying.{AddsTask, AddsTasks, PutsTask, ids_of, is_pattern_refused};
ghost use Rattle.kap_server.specs.Runs.{refusal_of};
ghost use Rattle.kap_server.specs.Words.{pairs_of};

use crate::status::Status;
use effect_text::TaskNames;
use kap_base::{NoMemory, SCRIPT_LIMIT, TASK_LIMIT, Text};
use lambda_types::Patterns;
use node_core::Node;
use node_set::{ScriptNode, TaskPlan, plan_task};
use std::alloc::Global;
use task_graph::{Dims, Graph, Spec};
use task_run::LifePlan;
use tick_compile::{Task, compile};

/// Tasks that are ready to run: the names by which lines tell of them, their lives, and whether a node of
/// theirs may change a point.
#[derive(Drop)]
pub(crate) struct Ready<N: Node> {
    pub(crate) names: Vec<TaskNames>,
    pub(crate) plans: Vec<LifePlan<N>>,
    pub(crate) changes: bool,
}

/// Whether a node that is given this may change a point, which it does in place where nobody else has it.
fn may_change(spec: &Spec) -> bool {
    match spec {
        Spec::From(from) => match &from.dims {
            Dims::Names(names) => from.by_measurement || !names.is_empty(),
            Dims::All => true,
        },
        Spec::Stream(_) | Spec::Where(_) | Spec::Log(_) | Spec::Alert(_) => false,
        Spec::Sample(_) | Spec::ChangeDetect(_) | Spec::Window(_) | Spec::Select(_) => false,
        _ => true,
    }
}

/// Whether a node of the graph may change a point.
fn changes_points(graph: &Graph) -> bool {
    graph
        .specs()
        .as_slice()
        .iter()
        .any(|node| may_change(&node.spec))
}

/// Whether this is a task's id.
fn is_id_of(task: &TaskNames, id: &[u8]) -> bool
    ensures { result ≡ bytes_eq id.now task.now.id }
{
    id == task.id.bytes()
}

/// Whether some task has the id.
fn has_id(names: &[TaskNames], id: &[u8]) -> bool
    ensures { result ≡ list_any (λ task. bytes_eq id.now task.id) names.now }
{
    names.iter().any(|task| is_id_of(task, id))
}

/// Whether the id was given before.
fn is_given(names: &[TaskNames], id: &[u8]) -> bool
    ensures { result ≡ is_among id.now (ids_of names.now) }
{
    has_id(names, id)
}

/// Puts a task behind those that are ready, to run in this life.
fn put_task<N: ScriptNode>(
    alloc: Global,
    life: u32,
    id: &str,
    task: Task,
    ready: &mut Ready<N>,
) -> Result<(), NoMemory>
    ensures { OnOk result (PutsTask N.spec N.state N.first N.planned life id.now task
        ready.old.names.items ready.new.names.items
        ready.old.plans.items ready.new.plans.items) }
{
    let id = Text::from_str(alloc, id)?;
    ready.changes = ready.changes || changes_points(&task.graph);
    let TaskPlan { plan, names } = plan_task(alloc, &id, life, task.graph)?;
    ready.names.push(TaskNames { id, nodes: names })?;
    ready.plans.push(plan)?;
    Ok(())
}

/// Makes the task of an id and a script ready, to run in this life behind the others.
fn add_task<P: Patterns, N: ScriptNode>(
    alloc: Global,
    life: u32,
    id: &str,
    script: &str,
    ready: &mut Ready<N>,
    pats: &mut P,
) -> Result<(), Status>
    ensures ok { OnOk result (AddsTask N.spec N.state N.first N.planned life
        (record { id = id.now; script = script.now })
        ready.old.names.items ready.new.names.items ready.old.plans.items ready.new.plans.items) }
    ensures err { IfErr result (λ s. s ≢ Status.NoMemory
        → IsNoTask (refusal_of s (P.refused pats.new)) (ids_of ready.old.names.items)
        (record { id = id.now; script = script.now }) s) }
    ensures rose { IfErr result (λ s. is_pattern_refused s ≡ true
        → HasRisen (P.refusals pats.old) (P.refusals pats.new)) }
    ensures kept { OnOk result (P.refusals pats.new ≡ P.refusals pats.old) }
{
    if script.len() > SCRIPT_LIMIT {
        return Err(Status::TooLong);
    }
    if is_given(&ready.names, id.as_bytes()) {
        return Err(Status::Exists);
    }
    let task = compile(alloc, script.as_bytes(), pats)?;
    put_task(alloc, life, id, task, ready)?;
    Ok(())
}

/// Makes the tasks of ids, each with a script behind it, ready, to run in lives from this one on behind the
/// others. An `Err` is that of the first that is no task.
pub(crate) fn add_tasks<P: Patterns, N: ScriptNode>(
    alloc: Global,
    life: u32,
    words: &[String],
    ready: &mut Ready<N>,
    pats: &mut P,
) -> Result<(), Status>
    requires { life + length words.now < 2 ^ 32 }
    ensures ok { OnOk result (AddsTasks N.spec N.state N.first N.planned life
        (pairs_of (map string_bytes words.now))
        ready.old.names.items ready.new.names.items ready.old.plans.items ready.new.plans.items) }
    ensures err { IfErr result (λ s. s ≢ Status.NoMemory
        → AreNoTasks (refusal_of s (P.refused pats.new)) (ids_of ready.old.names.items)
        (pairs_of (map string_bytes words.now)) s) }
    ensures rose { IfErr result (λ s. is_pattern_refused s ≡ true
        → HasRisen (P.refusals pats.old) (P.refusals pats.new)) }
    ensures kept { OnOk result (P.refusals pats.new ≡ P.refusals pats.old) }
{
    match words {
        [id, script, rest @ ..] => {
            add_task(alloc, life, id.as_str(), script.as_str(), ready, pats)?;
            add_tasks(alloc, life + 1, rest, ready, pats)
        }
        _ => Ok(()),
    }
}

/// Whether there are more tasks than there may be.
pub(crate) fn are_too_many(words: &[String]) -> bool
    ensures { result ≡ nat_lt TASK_LIMIT (length (pairs_of (map string_bytes words.now))) }
{
    words.len() >= 2 * TASK_LIMIT + 2
}
