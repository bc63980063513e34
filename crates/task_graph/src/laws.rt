//! What holds of all graphs, and which fault is the first: laws, and no code.

ghost use Rattle.std.specs.Prelude.{◌≡◌, ◌<◌, ◌*◌, ◌^◌, ℕ, List, None, Some, slice_get};
ghost use Rattle.kap_base.specs.Tree.{Tree};
ghost use Rattle.task_graph.specs.Graphs.{BeginsWithStream, HangsTogether, IsFaultless, IsGraph, IsLowestFault, first_graph_fault};
ghost use Rattle.task_graph.specs.declared.graph.GraphFault.{GraphFault};
ghost use Rattle.task_graph.specs.declared.graph.TheConstants.{NODE_LIMIT, PARENT_LIMIT};
ghost use Rattle.task_graph.specs.declared.sorts.TheConstants.{SPAN_LIMIT, UNIT_LIMIT};
ghost use Rattle.task_graph.specs.declared.spec.NodeSpec.{NodeSpec};

/// A graph begins with the stream. Each other node has as many parents as fit what it is given, 64 at most,
/// which stand before it and give what it takes.
pub fn graphs_hang_together()
    ensures stream { (nodes : List (NodeSpec Tree)) → IsGraph nodes → BeginsWithStream nodes }
    ensures others { (nodes : List (NodeSpec Tree)) (number : ℕ) (node : NodeSpec Tree)
        → IsGraph nodes → 0 < number → slice_get nodes number ≡ Some node
        → HangsTogether nodes number node }
{}

/// The fault of nodes is that of the lowest node that has one, and there is none exactly where no node has
/// one.
pub fn lowest_fault_is_first()
    ensures fault { (nodes : List (NodeSpec Tree)) (fault : GraphFault)
        → first_graph_fault nodes ≡ Some fault → IsLowestFault nodes fault }
    ensures none { (nodes : List (NodeSpec Tree))
        → first_graph_fault nodes ≡ None → IsFaultless nodes }
{}

/// The limits as numbers: nodes of a graph with the stream, parents of a node, and in nanoseconds the longest
/// duration and the least unit of `elapsed`.
pub fn limits_are_numbers()
    ensures nodes { NODE_LIMIT ≡ 256 }
    ensures parents { PARENT_LIMIT ≡ 64 }
    ensures span { SPAN_LIMIT ≡ 2 * 10 ^ 17 }
    ensures unit { UNIT_LIMIT ≡ 1000 }
{}
