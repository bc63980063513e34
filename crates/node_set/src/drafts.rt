//! Nodes that are made one after the other.

ghost use Rattle.std.specs.Prelude.{◌≡◌, ◌∷◌, [], ◌+◌, ◌≤◌, OnOk, length};
ghost use Rattle.task_graph.specs.declared.graph.TheConstants.{NODE_LIMIT};
ghost use Rattle.node_set.specs.Drafts.{AddsNodes};

use crate::script_node::ScriptNode;
use kap_base::{NoMemory, Text};
use std::alloc::Global;
use std::marker::Model;
use std::vec::IntoIter;
use task_graph::NodeSpec;
use task_run::Ids;

/// Nodes that were made for those of a script, with their parents and their names.
#[derive(Drop)]
pub(crate) struct Draft<N> {
    pub(crate) nodes: Vec<N>,
    pub(crate) parents: Vec<Ids>,
    pub(crate) names: Vec<Text>,
}

impl<N> Model for Draft<N> {
    ghost use Rattle.node_set.specs.Drafts.{DraftValue};

    ghost Value = { DraftValue N };

    ghost view = { λ d. record {
      nodes = d.nodes.items;
      parents = d.parents.items;
      names = d.names.items;
    } };
}

impl<N: Drop> Draft<N> {
    /// No nodes yet.
    pub(crate) fn new(alloc: Global) -> Draft<N>
        ensures { result ≡ record { nodes = []; parents = []; names = [] } }
    {
        Draft {
            nodes: Vec::new(alloc),
            parents: Vec::new(alloc),
            names: Vec::new(alloc),
        }
    }
}

/// Adds the node of a script with this number, in a life of the task of this id.
fn add_node<N: ScriptNode>(
    alloc: Global,
    task: &Text,
    life: u32,
    number: u32,
    node: NodeSpec,
    draft: &mut Draft<N>,
) -> Result<(), NoMemory>
    ensures { OnOk result (AddsNodes N.spec N.state N.first N.planned task.now life number
        (node ∷ []) draft.old draft.new) }
{
    let NodeSpec {
        name,
        spec,
        parents,
    } = node;
    let made = N::of_script(alloc, task, life, number, &name, &parents, spec)?;
    draft.nodes.push(made)?;
    draft.parents.push(parents)?;
    draft.names.push(name)?;
    Ok(())
}

/// Adds the nodes of a script, numbered from here on, in a life of the task of this id.
pub(crate) fn add_nodes<N: ScriptNode>(
    alloc: Global,
    task: &Text,
    life: u32,
    number: u32,
    mut nodes: IntoIter<NodeSpec>,
    draft: &mut Draft<N>,
) -> Result<(), NoMemory>
    requires { number + length nodes.rest.items ≤ NODE_LIMIT }
    ensures { OnOk result (AddsNodes N.spec N.state N.first N.planned task.now life number
        nodes.rest.items draft.old draft.new) }
{
    match nodes.next() {
        Some(node) => {
            add_node(alloc, task, life, number, node, draft)?;
            add_nodes(alloc, task, life, number + 1, nodes, draft)
        }
        None => Ok(()),
    }
}
