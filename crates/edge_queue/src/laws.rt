//! Laws of edges, and no code.

ghost use Rattle.std.specs.Prelude.{◌≡◌, ◌<◌, ◌++◌, length};
ghost use Rattle.kap_base.specs.declared.items.Msg.{Msg};
ghost use Rattle.edge_queue.specs.declared.ends.Head.{Head};
ghost use Rattle.edge_queue.specs.declared.ends.Tail.{Tail};
ghost use Rattle.edge_queue.specs.Edges.{IsEdge, IsSettled, edge_capacity, known, received, sent};
ghost use Rattle.edge_queue.specs.Moves.{HeadLooked, Puts, TailLooked, Takes};

/// On a settled edge what was received since the load, and then what is on the edge, are what was sent since
/// the load. There a message was put only where there was room, and taken only where one was, as settling the
/// edge again shows.
#[tactic(auto, using(crate::proofs::EdgeLaws::settled_since, crate::proofs::EdgeLaws::put_had_room, crate::proofs::EdgeLaws::taken_was_there))]
pub fn settled_edges_tell()
    ensures order { (t : Tail) (h : Head)
        → IsEdge t h → IsSettled t h → received h ++ known h ≡ sent t }
    ensures room { (msg : Msg) (t put after : Tail) (h later : Head)
        → IsSettled t h → Puts msg t put → TailLooked put after → HeadLooked h later
        → IsSettled after later → length (known h) < edge_capacity t }
    ensures there { (msg : Msg) (t after : Tail) (h taken later : Head)
        → IsSettled t h → Takes msg h taken → TailLooked t after → HeadLooked taken later
        → IsSettled after later → 0 < length (known h) }
{}
