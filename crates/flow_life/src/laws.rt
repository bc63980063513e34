//! Laws of streams, and no code.

ghost use Rattle.std.specs.Prelude.{◌≡◌, List};
ghost use Rattle.kap_base.specs.declared.items.Msg.{Msg};
ghost use Rattle.kap_base.specs.declared.items.Stamp.{Stamp};
ghost use Rattle.merge_node.specs.Merge.{AreClosed, AreMergeable, merge};
ghost use Rattle.flow_cells.specs.declared.parts.CellParts.{CellParts};
ghost use Rattle.flow_life.specs.Graphs.{HasStreams, IsGraph};
ghost use Rattle.flow_life.specs.Lives.{IsLife};
ghost use Rattle.flow_life.specs.Streams.{AreStreams, IsStream, Plan, plans_of, streams_into};

use node_core::Node;

/// Every graph has its streams, and no others. Where the streams of a node's parents are in order of their
/// stamps, with the same barriers and one behind each item, what the node handles in whole is their merge.
pub fn graphs_have_streams<N: Node>()
    ensures has { (plans : List (Plan N.State)) → IsGraph plans → HasStreams plans }
    ensures only { (plans : List (Plan N.State)) (xs ys : List (List Msg))
        → IsGraph plans → AreStreams plans xs → AreStreams plans ys → xs ≡ ys }
    ensures merged { (bs : List Stamp) (streams : List (List Msg)) (p : Plan N.State)
        (stream : List Msg) (whole : IsStream streams p stream)
        → AreMergeable bs (streams_into streams p.parents p.source)
        → AreClosed (streams_into streams p.parents p.source)
        → whole.merged ≡ merge (streams_into streams p.parents p.source) }
{}

/// The nodes of a life are those of a graph.
#[tactic(auto, using(crate::specs::GraphLaws::life_graph))]
pub fn plans_are_graphs<N: Node>()
    ensures { (cells : List (CellParts N)) → IsLife N.Node cells → IsGraph (plans_of N.Node cells) }
{}
