//! Nodes, read by their kinds.

ghost use Rattle.std.specs.Prelude.{◌≡◌, ◌++◌, ◌∷◌, [], IfOk, OnOk};
ghost use Rattle.kap_base.specs.Words.{Answers};
ghost use Rattle.tick_compile.specs.Kinds.{spec_by, spec_of};
ghost use Rattle.tick_compile.specs.Nodes.{node_name, node_spec, nodes_above, nodes_in, other_node, parents_of, specs_from, stream_node, stream_spec};

use crate::alerts::alert_spec;
use crate::changes::{default_spec, delete_spec, eval_spec, group_by_spec, log_spec, shift_spec};
use crate::filters::{from_spec, sample_spec, where_spec};
use crate::given::{Given, Node};
use crate::joins::{join_spec, union_spec};
use crate::kind::{Kind, kind_named};
use crate::node_fault::NodeFault;
use crate::props::no_props;
use crate::selects::{rank_spec, select_spec};
use crate::states::state_spec;
use crate::windows::window_spec;
use itoa::Buffer;
use kap_base::{Dbrp, Dbrps, Duplicate, ItemList, NoMemory, Text};
use std::alloc::Global;
use task_graph::{Ids, NodeSpec, NodeSpecs, Spec};

/// What a node of this kind is given.
fn spec_by<L: Drop>(alloc: Global, kind: Kind, node: Node<L>) -> Result<Spec<L>, NodeFault>
    ensures { Answers NodeFault.NoMemory result (spec_by (Some kind) node) }
{
    match kind {
        Kind::From => from_spec(alloc, node),
        Kind::Where => where_spec(node),
        Kind::Eval => eval_spec(alloc, node),
        Kind::GroupBy => group_by_spec(alloc, node),
        Kind::Log => log_spec(alloc, node),
        Kind::Default => default_spec(alloc, node),
        Kind::Delete => delete_spec(alloc, node),
        Kind::Shift => shift_spec(alloc, node),
        Kind::Sample => sample_spec(alloc, node),
        Kind::Window => window_spec(alloc, node),
        Kind::Alert => alert_spec(alloc, node),
        Kind::Union => union_spec(alloc, node),
        Kind::Join => join_spec(alloc, node),
        Kind::State(kind) => state_spec(alloc, kind, node),
        Kind::Select(select) => select_spec(alloc, select, node),
        Kind::Rank(rank) => rank_spec(alloc, rank, node),
    }
}

/// What a node is given.
fn spec_of<L: Drop>(alloc: Global, node: Node<L>) -> Result<Spec<L>, NodeFault>
    ensures { Answers NodeFault.NoMemory result (spec_of node) }
{
    match kind_named(&node.kind) {
        Some(kind) => spec_by(alloc, kind, node),
        None => Err(NodeFault::NoKind(node.at)),
    }
}

/// The same pairs.
fn copy_of(alloc: Global, dbrps: &[Dbrp]) -> Result<Dbrps, NoMemory>
    ensures { IfOk result (λ copy. copy ≡ dbrps.now) }
{
    let mut copy = Dbrps::new(alloc);
    'copying: for dbrp in dbrps {
        let db = dbrp.db.copy(alloc)?;
        let rp = dbrp.rp.copy(alloc)?;
        copy.push(Dbrp { db, rp })?;
    }
    Ok(copy)
}

/// What the stream is given.
fn stream_spec<L: Drop>(alloc: Global, dbrps: &[Dbrp], node: Node<L>) -> Result<Spec<L>, NodeFault>
    ensures { Answers NodeFault.NoMemory result (stream_spec dbrps.now node) }
{
    no_props(&node.props)?;
    Ok(Spec::Stream(copy_of(alloc, dbrps)?))
}

/// Adds the number of a node that is given.
fn add_node<L>(ids: &mut Ids, given: &Given<L>) -> Result<(), NoMemory>
    ensures { OnOk result (ids.new ≡ ids.old ++ nodes_in (given.now ∷ [])) }
{
    match given {
        Given::Node(number) => ids.push(*number),
        _ => Ok(()),
    }
}

/// The node under which a node stands, and those that it is given.
#[tactic(auto, using(crate::proofs::NodeLaws::nodes_more))]
fn nodes_above<L: Drop>(alloc: Global, node: &Node<L>) -> Result<Ids, NoMemory>
    ensures { IfOk result (λ ids. ids ≡ nodes_above node.now) }
{
    let mut ids = Ids::new(alloc);
    ids.push(node.parent)?;
    'adding: for given in node.args.as_slice() {
        add_node(&mut ids, given)?;
    }
    Ok(ids)
}

/// Those of these nodes that are the parents of a node that is given this.
fn parents_of<L>(spec: &Spec<L>, mut above: Ids) -> Ids
    ensures { result ≡ parents_of spec.now above }
{
    if !spec.takes_nodes() {
        above.truncate(1);
    }
    above
}

/// The name of a node of this kind with this number.
fn node_name(alloc: Global, kind: &Text, number: usize) -> Result<Text, NoMemory>
    ensures { IfOk result (λ name. name ≡ node_name kind.now number) }
{
    let mut digits = Buffer::new();
    let mut name = String::from_str(alloc, kind.as_str())?;
    name.push_str(digits.format(number as u64))?;
    Ok(Text::from_string(name))
}

/// Node 0.
fn stream_node<L: Drop>(
    alloc: Global,
    dbrps: &[Dbrp],
    node: Node<L>,
) -> Result<NodeSpec<L>, NodeFault>
    ensures { Answers NodeFault.NoMemory result (stream_node dbrps.now node) }
{
    let name = node_name(alloc, &node.kind, 0)?;
    Ok(NodeSpec {
        name,
        spec: stream_spec(alloc, dbrps, node)?,
        parents: Ids::new(alloc),
    })
}

/// A node of this number that isn't the stream.
fn other_node<L: Drop>(
    alloc: Global,
    number: usize,
    node: Node<L>,
) -> Result<NodeSpec<L>, NodeFault>
    ensures { Answers NodeFault.NoMemory result (other_node number node) }
{
    let name = node_name(alloc, &node.kind, number)?;
    let above = nodes_above(alloc, &node)?;
    let spec = spec_of(alloc, node)?;
    let parents = parents_of(&spec, above);
    Ok(NodeSpec {
        name,
        spec,
        parents,
    })
}

/// The node of this number.
#[tactic(auto, using(crate::proofs::NodeLaws::other_number))]
fn node_spec<L: Drop>(
    alloc: Global,
    dbrps: &[Dbrp],
    number: usize,
    node: Node<L>,
) -> Result<NodeSpec<L>, NodeFault>
    ensures { Answers NodeFault.NoMemory result (node_spec dbrps.now number node) }
{
    if number == 0 {
        return stream_node(alloc, dbrps, node);
    }
    other_node(alloc, number, node)
}

/// All nodes in order.
pub(crate) fn node_specs<L: Drop>(
    alloc: Global,
    dbrps: &[Dbrp],
    nodes: ItemList<Node<L>>,
) -> Result<NodeSpecs<L>, NodeFault>
    ensures { Answers NodeFault.NoMemory result (specs_from dbrps.now [] nodes) }
{
    let mut specs = NodeSpecs::new(alloc);
    'reading: for node in nodes.into_items() {
        let spec = node_spec(alloc, dbrps, specs.len(), node)?;
        specs.push(spec)?;
    }
    Ok(specs)
}
