//! Bound scripts, compiled to tasks.

ghost use Rattle.std.specs.Prelude.{◌≡◌, ◌≢◌, [], map, true, false, IfErr, IfOk, IsTrue, None, Ok, Err};
ghost use Rattle.kap_base.specs.Words.{Answers, HasRisen};
ghost use Rattle.lambda_types.specs.Builds.{AtMostOneMore};
ghost use Rattle.task_graph.specs.Graphs.{has_shape};
ghost use Rattle.tick_vars.specs.Law.{IsSettled};
ghost use Rattle.tick_vars.specs.Nodes.{bound_tree, node_trees};
ghost use Rattle.tick_compile.specs.Tasks.{NodeSpecTrees, checked, compiled, compiled_nodes, finished, has_from, is_refusal, raised, refusal_in, typed};
ghost use Rattle.tick_compile.specs.Nodes.{specs_from};
ghost use Rattle.tick_compile.specs.Typing.{node_of, type_fault};

use crate::given::Node;
use crate::node_fault::NodeFault;
use crate::nodes::node_specs;
use crate::script_fault::ScriptFault;
use crate::typing::typed_nodes;
use crate::untyped::untyped_nodes;
use kap_base::{Dbrp, Dbrps, ItemList};
use lambda_types::{Lambda, Patterns, TypeFault};
use std::alloc::Global;
use task_graph::{Graph, NodeSpec, NodeSpecs, Spec};
use tick_vars::{Bound, RawNode};

/// A task (Kapacitor 1.6 TICKscript language reference: stream tasks).
#[derive(Drop)]
pub struct Task {
    /// Its nodes, and how they hang together.
    pub graph: Graph,
    /// The databases and retention policies that it sees, in the order of the script; all where there are
    /// none.
    pub dbrps: Dbrps,
}

/// What nodes are given.
fn read<L: Drop>(
    alloc: Global,
    dbrps: &[Dbrp],
    nodes: ItemList<Node<L>>,
) -> Result<NodeSpecs<L>, ScriptFault>
    ensures specs { Answers ScriptFault.NoMemory result (raised (specs_from dbrps.now [] nodes)) }
    ensures plain { IfErr result (λ f. is_refusal f ≡ false) }
{
    match node_specs(alloc, dbrps, nodes) {
        Ok(specs) => Ok(specs),
        Err(NodeFault::NoKind(at)) => Err(ScriptFault::NoKind(at)),
        Err(NodeFault::Property(at)) => Err(ScriptFault::Property(at)),
        Err(NodeFault::Argument(at)) => Err(ScriptFault::Argument(at)),
        Err(NodeFault::Handler(at)) => Err(ScriptFault::Handler(at)),
        Err(NodeFault::Template(at, fault)) => Err(ScriptFault::Template(at, fault)),
        Err(NodeFault::NoMemory) => Err(ScriptFault::NoMemory),
    }
}

/// Asks the nodes for their kinds, arguments and properties.
fn check(alloc: Global, dbrps: &[Dbrp], nodes: &[RawNode]) -> Result<(), ScriptFault>
    ensures first { Answers ScriptFault.NoMemory result
        (checked (raised (specs_from dbrps.now [] (map node_of (node_trees nodes.now))))) }
    ensures plain { IfErr result (λ f. is_refusal f ≡ false) }
{
    let untyped = untyped_nodes(alloc, nodes)?;
    read(alloc, dbrps, untyped)?;
    Ok(())
}

/// The nodes with their lambdas typed.
fn type_lambdas<P: Patterns>(
    alloc: Global,
    nodes: &[RawNode],
    pats: &mut P,
) -> Result<ItemList<Node<Lambda>>, ScriptFault>
    ensures ok { IfOk result (λ typed. (typed ≡ map node_of (node_trees nodes.now))
        × (type_fault None (node_trees nodes.now) ≡ None)) }
    ensures err { IfErr result (λ f. f ≢ ScriptFault.NoMemory →
        typed (type_fault (refusal_in f (P.refused pats.new)) (node_trees nodes.now)) ≡ Err f) }
    ensures kept { IfOk result (λ _. P.refusals pats.new ≡ P.refusals pats.old) }
    ensures rose { IfErr result (λ f. is_refusal f ≡ true →
        HasRisen (P.refusals pats.old) (P.refusals pats.new)) }
    ensures counted { AtMostOneMore (P.refusals pats.old) (P.refusals pats.new) }
{
    match typed_nodes(alloc, nodes, pats) {
        Ok(typed) => Ok(typed),
        Err(TypeFault::NoMemory) => Err(ScriptFault::NoMemory),
        Err(fault) => Err(ScriptFault::Lambda(fault)),
    }
}

/// Whether some node is a `from`.
fn has_from(specs: &[NodeSpec]) -> bool
    ensures { result ≡ has_from specs.now }
{
    specs.iter().any(|node| matches!(node.spec, Spec::From(_)))
}

/// The graph of nodes, among which is a `from`.
fn finish(specs: NodeSpecs) -> Result<Graph, ScriptFault>
    requires { IsTrue (has_shape specs) }
    ensures graph { IfOk result (λ graph. finished specs ≡ Ok graph) }
    ensures fault { IfErr result (λ f. finished specs ≡ Err f) }
{
    let from = has_from(specs.as_slice());
    let graph = match Graph::make(specs) {
        Ok(graph) => graph,
        Err(fault) => return Err(ScriptFault::Graph(fault)),
    };
    if !from {
        return Err(ScriptFault::NoFrom);
    }
    Ok(graph)
}

/// The graph of a bound script's nodes.
fn compile_nodes<P: Patterns>(
    alloc: Global,
    dbrps: &[Dbrp],
    nodes: &[RawNode],
    pats: &mut P,
) -> Result<Graph, ScriptFault>
    requires { (specs : NodeSpecTrees)
        → specs_from dbrps.now [] (map node_of (node_trees nodes.now)) ≡ Ok specs
        → IsTrue (has_shape specs) }
    ensures graph { IfOk result (λ graph.
        compiled_nodes None dbrps.now (node_trees nodes.now) ≡ Ok graph) }
    ensures fault { IfErr result (λ f. f ≢ ScriptFault.NoMemory →
        compiled_nodes (refusal_in f (P.refused pats.new)) dbrps.now (node_trees nodes.now) ≡ Err f) }
    ensures kept { IfOk result (λ _. P.refusals pats.new ≡ P.refusals pats.old) }
    ensures rose { IfErr result (λ f. is_refusal f ≡ true →
        HasRisen (P.refusals pats.old) (P.refusals pats.new)) }
    ensures counted { AtMostOneMore (P.refusals pats.old) (P.refusals pats.new) }
{
    check(alloc, dbrps, nodes)?;
    let typed = type_lambdas(alloc, nodes, pats)?;
    let specs = read(alloc, dbrps, typed)?;
    finish(specs)
}

/// The task of a bound script, or its first fault.
pub(crate) fn compile_bound<P: Patterns>(
    alloc: Global,
    bound: Bound,
    pats: &mut P,
) -> Result<Task, ScriptFault>
    requires { IsSettled (bound_tree bound) }
    ensures task { IfOk result (λ task. compiled None (bound_tree bound) ≡ Ok task.graph) }
    ensures dbrps { IfOk result (λ task. task.dbrps ≡ bound.dbrps) }
    ensures fault { IfErr result (λ f. f ≢ ScriptFault.NoMemory →
        compiled (refusal_in f (P.refused pats.new)) (bound_tree bound) ≡ Err f) }
    ensures kept { IfOk result (λ _. P.refusals pats.new ≡ P.refusals pats.old) }
    ensures rose { IfErr result (λ f. is_refusal f ≡ true →
        HasRisen (P.refusals pats.old) (P.refusals pats.new)) }
    ensures counted { AtMostOneMore (P.refusals pats.old) (P.refusals pats.new) }
{
    let Bound { dbrps, nodes } = bound;
    let graph = compile_nodes(alloc, dbrps.as_slice(), nodes.as_slice(), pats)?;
    Ok(Task { graph, dbrps })
}
