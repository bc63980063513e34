//! An edge between two cells is settled.

ghost use Rattle.std.specs.Prelude.{◌<◌};
ghost use Rattle.flow_cells.specs.Kept.{Keeps};
ghost use Rattle.flow_cells.specs.Settles.{IsFedBy, Settles};

use crate::parts::CellParts;
use node_core::Node;

/// Shows both ends of the edge of an input what is on it.
pub(crate) fn settle<N: Node>(parent: &mut CellParts<N>, child: &mut CellParts<N>, input: u32)
    requires { IsFedBy input parent.old child.old }
    ensures parent { Keeps N.Node parent.old → Keeps N.Node parent.new }
    ensures child { Keeps N.Node child.old → Keeps N.Node child.new }
    ensures settles { Settles input parent.old child.old parent.new child.new }
{
    let edge = &mut child.ins[input as usize];
    let out = &mut parent.core.outs[edge.out as usize];
    edge_queue::settle(&mut out.tail, &mut edge.head);
}
