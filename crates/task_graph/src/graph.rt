//! Graphs, and why nodes are none.

ghost use Rattle.std.specs.Prelude.{◌≡◌, false, IfErr, IfOk, IsTrue, None, Some};
ghost use Rattle.std.specs.Option.{option_map_or};
ghost use Rattle.task_graph.specs.Edges.{cannot_stand, ends_chain, gives, is_wrong_kind, takes, takes_nodes};
ghost use Rattle.task_graph.specs.Graphs.{IsGraph, first_graph_fault, has_shape, node_fault, some_parent, spec_at};

use crate::spec::{NodeSpec, NodeSpecs, Spec};
use lambda_types::Lambda;
use std::marker::Model;

/// The most nodes of a graph, with the stream.
pub const NODE_LIMIT: u32 = 256;

/// The most parents of a node.
pub const PARENT_LIMIT: usize = 64;

/// What flows on an edge.
#[derive(Clone, Copy, Debug, PartialEq, Eq)]
pub enum Flow {
    /// Points.
    Points,
    /// Batches, as a window gives them.
    Batches,
}

/// Why nodes are no graph (Kapacitor 1.6: edges of a pipeline). The number is that of the node.
#[derive(Clone, Copy, Debug, PartialEq, Eq)]
pub enum GraphFault {
    /// There are more than `NODE_LIMIT`.
    TooManyNodes,
    /// It stands under an alert.
    Chain(u32),
    /// It is a `from` and stands under anything but the stream or a `from`, is no `from` and stands under the
    /// stream, or has more than `PARENT_LIMIT` parents.
    Parents(u32),
    /// It takes points and meets batches, or the reverse.
    Kind(u32),
    /// Memory ran out.
    NoMemory,
}

impl<L> Spec<L> {
    /// What a node gives on; nothing where none may stand under it.
    pub fn gives(&self) -> Option<Flow>
        ensures { result ≡ gives self.now }
    {
        match self {
            Spec::Window(_) => Some(Flow::Batches),
            Spec::Alert(_) => None,
            _ => Some(Flow::Points),
        }
    }

    /// What a node takes.
    pub fn takes(&self) -> Flow
        ensures { result ≡ takes self.now }
    {
        match self {
            Spec::Select(_) => Flow::Batches,
            _ => Flow::Points,
        }
    }

    /// Whether its arguments are nodes, which are its parents besides the one that it stands under.
    pub fn takes_nodes(&self) -> bool
        ensures { result ≡ takes_nodes self.now }
    {
        matches!(self, Spec::Union(_) | Spec::Join(_))
    }
}

/// Whether nothing may stand under this parent.
fn ends_chain(nodes: &[NodeSpec], parent: u32) -> bool
    ensures { result ≡ option_map_or ends_chain (spec_at nodes.now parent) false }
{
    match nodes.get(parent as usize) {
        Some(node) => node.spec.gives().is_none(),
        None => false,
    }
}

/// Whether a node of this spec can't stand under one of that.
fn cannot_stand(child: &Spec<Lambda>, parent: &Spec<Lambda>) -> bool
    ensures { result ≡ cannot_stand child.now parent.now }
{
    match (child, parent) {
        (Spec::Stream(_), _) => true,
        (Spec::From(_), Spec::Stream(_) | Spec::From(_)) => false,
        (Spec::From(_), _) => true,
        (_, Spec::Stream(_)) => true,
        _ => false,
    }
}

/// Whether this spec can't stand under this parent.
fn is_misplaced(nodes: &[NodeSpec], spec: &Spec<Lambda>, parent: u32) -> bool
    ensures { result ≡ option_map_or (cannot_stand spec.now) (spec_at nodes.now parent) false }
{
    match nodes.get(parent as usize) {
        Some(node) => cannot_stand(spec, &node.spec),
        None => false,
    }
}

/// Whether this parent gives what this spec doesn't take.
fn is_wrong_kind(nodes: &[NodeSpec], spec: &Spec<Lambda>, parent: u32) -> bool
    ensures { result ≡ option_map_or (is_wrong_kind spec.now) (spec_at nodes.now parent) false }
{
    let Some(node) = nodes.get(parent as usize) else {
        return false;
    };
    match node.spec.gives() {
        Some(flow) => flow != spec.takes(),
        None => false,
    }
}

/// Whether nothing may stand under one of these parents.
fn any_ends_chain(nodes: &[NodeSpec], parents: &[u32]) -> bool
    ensures { result ≡ some_parent ends_chain nodes.now parents.now }
{
    parents.iter().any(|p| ends_chain(nodes, *p))
}

/// Whether this spec can't stand under one of these parents.
fn any_misplaced(nodes: &[NodeSpec], spec: &Spec<Lambda>, parents: &[u32]) -> bool
    ensures { result ≡ some_parent (cannot_stand spec.now) nodes.now parents.now }
{
    parents.iter().any(|p| is_misplaced(nodes, spec, *p))
}

/// Whether one of these parents gives what this spec doesn't take.
fn any_wrong_kind(nodes: &[NodeSpec], spec: &Spec<Lambda>, parents: &[u32]) -> bool
    ensures { result ≡ some_parent (is_wrong_kind spec.now) nodes.now parents.now }
{
    parents.iter().any(|p| is_wrong_kind(nodes, spec, *p))
}

/// The fault of the node of this number.
fn node_fault(nodes: &[NodeSpec], number: u32, node: &NodeSpec) -> Option<GraphFault>
    ensures { result ≡ node_fault nodes.now number node.now }
{
    let parents = node.parents.as_slice();
    if number >= NODE_LIMIT {
        return Some(GraphFault::TooManyNodes);
    }
    if any_ends_chain(nodes, parents) {
        return Some(GraphFault::Chain(number));
    }
    if any_misplaced(nodes, &node.spec, parents) {
        return Some(GraphFault::Parents(number));
    }
    if parents.len() > PARENT_LIMIT {
        return Some(GraphFault::Parents(number));
    }
    if any_wrong_kind(nodes, &node.spec, parents) {
        return Some(GraphFault::Kind(number));
    }
    None
}

/// The first fault of nodes.
fn first_fault(nodes: &[NodeSpec]) -> Option<GraphFault>
    ensures { result ≡ first_graph_fault nodes.now }
{
    let mut number = 0;
    'checking: for node in nodes {
        if let Some(fault) = node_fault(nodes, number, node) {
            return Some(fault);
        }
        number += 1;
    }
    None
}

/// The graph of a task, which contracts see as its nodes (Kapacitor 1.6: pipeline of a task). Each node's
/// parents stand before it, node 0 is the stream and the only one without parents, and what a parent gives is
/// what its child takes.
#[derive(Drop)]
pub struct Graph {
    nodes: NodeSpecs,
}

impl Model for Graph {
    ghost use Rattle.std.specs.Coded.{codes};
    ghost use Rattle.std.specs.Prelude.{List};
    ghost use Rattle.kap_base.specs.Tree.{Tree};
    ghost use Rattle.kap_base.specs.TreeCode.{tree_code};
    ghost use Rattle.task_graph.specs.Graphs.{IsGraph};
    ghost use Rattle.task_graph.specs.declared.spec.NodeSpec.{NodeSpec};

    ghost Value = { List (NodeSpec Tree) };

    ghost coded = { Prim.hlevel (codes, tree_code) };

    ghost view = { λ g. g.nodes };

    ghost invariant = { λ g. IsGraph g.nodes };
}

impl Graph {
    /// The graph of these nodes, or the fault of the lowest node that has one: `TooManyNodes` at the node
    /// with the number `NODE_LIMIT`, `Chain`, `Parents` and `Kind` in this order at each node. Node 0 is the
    /// stream and has no parent; each other node has earlier ones as parents, a union at least one, a join as
    /// many as prefixes, which differ, and any other node one; an `eval` has a lambda. It takes no memory,
    /// and time in the number of nodes and edges.
    pub fn make(nodes: NodeSpecs) -> Result<Graph, GraphFault>
        requires { IsTrue (has_shape nodes) }
        ensures graph { IfOk result (λ graph. graph ≡ nodes) }
        ensures faultless { IfOk result (λ graph. first_graph_fault nodes ≡ None) }
        ensures fault { IfErr result (λ fault. first_graph_fault nodes ≡ Some fault) }
    {
        match first_fault(nodes.as_slice()) {
            Some(fault) => Err(fault),
            None => Ok(Graph { nodes }),
        }
    }

    /// Its nodes, in order.
    pub fn specs(&self) -> &NodeSpecs
        ensures same { result.now ≡ self.now }
        ensures graph { IsGraph self.now }
    {
        &self.nodes
    }

    /// Its nodes, in order, moved out.
    pub fn into_specs(self) -> NodeSpecs
        ensures same { result ≡ self }
        ensures graph { IsGraph self }
    {
        self.nodes
    }
}
