//! What is planned of a task.

ghost use Rattle.std.specs.Prelude.{◌≡◌, ◌≤◌, IfOk, length, map};
ghost use Rattle.std.specs.List.{AllByRecursion as Each};
ghost use Rattle.task_graph.specs.declared.graph.TheConstants.{PARENT_LIMIT};
ghost use Rattle.task_run.specs.Plans.{AreFirstNodes, IsPlan, graph_of};
ghost use Rattle.node_set.specs.Tasks.{nodes_from};

use crate::drafts::{Draft, add_nodes};
use crate::script_node::ScriptNode;
use kap_base::{ItemList, Names, NoMemory, Text};
use node_core::Node;
use std::alloc::Global;
use task_graph::Graph;
use task_run::LifePlan;

/// What is planned of a task: its life, and the names of its nodes, by their numbers.
#[derive(Drop)]
pub struct TaskPlan<N: Node> {
    /// Its life, whose nodes are in their first states.
    pub plan: LifePlan<N>,
    /// The names of its nodes.
    pub names: Names,
}

/// What is planned of the task of this id, with this graph, which runs in this life.
/// `NoMemory` comes where an allocation fails.
pub fn plan_task<N: ScriptNode>(
    alloc: Global,
    task: &Text,
    life: u32,
    graph: Graph,
) -> Result<TaskPlan<N>, NoMemory>
    ensures nodes { IfOk result (λ made. graph_of N.spec made.plan
        ≡ nodes_from N.planned task.now life 0 graph) }
    ensures life { IfOk result (λ made. made.plan.life ≡ life) }
    ensures plan { IfOk result (λ made. IsPlan N.spec N.ports N.life N.number made.plan) }
    ensures begin { IfOk result (λ made. AreFirstNodes N.spec N.state N.first made.plan.nodes) }
    ensures few { IfOk result (λ made. Each (λ ps. length ps ≤ PARENT_LIMIT) made.plan.parents) }
    ensures names { IfOk result (λ made. made.names ≡ map (λ node. node.name) graph) }
{
    let specs = graph.into_specs().into_items();
    let mut draft = Draft::new(alloc);
    add_nodes(alloc, task, life, 0, specs.into_iter(), &mut draft)?;
    let Draft {
        nodes,
        parents,
        names,
    } = draft;
    Ok(TaskPlan {
        plan: LifePlan {
            life,
            nodes: ItemList::from_items(nodes),
            parents: ItemList::from_items(parents),
        },
        names: Names::from_items(names),
    })
}
