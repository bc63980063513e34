//! What a cell consists of.

use edge_queue::{Head, Tail};
use kap_base::{Bytes, Msg, Stamp};
use merge_node::{MergeBuf, Queue};
use node_core::{Effects, Items};
use std::snapshot::Snapshot;

/// An out of a cell: an edge to a child, and what waits for it.
#[derive(Drop)]
pub struct OutEdge {
    /// The end into which messages are put.
    pub tail: Tail,
    /// The messages that are given out and not put yet.
    pub unsent: Queue,
    /// The number of the child.
    pub child: u32,
    /// Which of its inputs the edge is.
    pub input: u32,
}

/// An input of a cell: an edge from a parent.
#[derive(Drop)]
pub struct InEdge {
    /// The end out of which messages are taken.
    pub head: Head,
    /// The number of the parent.
    pub from: u32,
    /// Which of its outs the edge is.
    pub out: u32,
}

/// The effects that were gathered from a cell since the load, one list behind the other. It has no contents:
/// contracts alone see them.
#[derive(Drop)]
pub enum Gathered {
    /// None yet.
    Start,
    /// Those before, and a list behind them.
    More(Snapshot<Gathered>, Snapshot<Effects>),
}

/// A node with what it gives out.
#[derive(Drop)]
pub struct Core<N> {
    /// The node.
    pub node: N,
    /// Its edges to children.
    pub outs: Vec<OutEdge>,
    /// Room for what the node gives for a message, before that waits at the outs. What it holds counts for
    /// nothing.
    pub given: Items,
    /// The effects since the load that were gathered.
    pub gathered: Gathered,
    /// Those that weren't gathered yet.
    pub effects: Effects,
    /// The stamp of the last barrier that was passed.
    pub passed: Stamp,
    /// Whether nothing was fed to the node since, so that it still is in the state in which it was there.
    pub clean: bool,
    /// Whether that state is to be kept when something is fed to the node.
    pub keeps: bool,
    /// Its spelling, where it was kept. Otherwise what it holds counts for nothing.
    pub saved: Bytes,
}

/// A core with its inputs.
#[derive(Drop)]
pub struct CellParts<N> {
    /// The node, with what it gives out.
    pub core: Core<N>,
    /// What was received and isn't merged yet.
    pub buffer: MergeBuf,
    /// The edges from parents; none for a stream.
    pub ins: Vec<InEdge>,
    /// Of a stream the points and barriers of the last load.
    pub source: Snapshot<Vec<Msg>>,
    /// What the core was as the last load began.
    pub base: Snapshot<Core<N>>,
    /// Whether a call on it failed in the middle.
    pub spent: bool,
}
