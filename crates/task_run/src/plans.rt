use crate::Ids;
use kap_base::ItemList;
use node_core::Node;
use std::marker::Model;

/// The nodes of a life, each with its parents. Node 0 is the stream and has no parent; every other node has
/// earlier ones, one at least, and is made for as many ports. Each node is made for this life, with its place
/// as its number.
#[derive(Drop)]
pub struct LifePlan<N: Node> {
    /// The number of the life.
    pub life: u32,
    /// Its nodes.
    pub nodes: ItemList<N>,
    /// The parents of each, by their numbers, in the order of its ports.
    pub parents: ItemList<Ids>,
}

impl<N: Node> Model for LifePlan<N> {
    ghost use Rattle.task_run.specs.Plans.{PlanValue, IsPlan};

    ghost Value = { PlanValue N };

    ghost view = { λ p. record { life = p.life; nodes = p.nodes; parents = p.parents } };

    ghost inverse = { λ p. record { life = p.life; nodes = p.nodes; parents = p.parents } };

    ghost invariant = { λ p. IsPlan N.spec N.ports N.life N.number
        (record { life = p.life; nodes = p.nodes; parents = p.parents }) };
}
