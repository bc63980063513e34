//! What a script is once its names are bound: nodes with their arguments and properties.

use kap_base::{Dbrps, ItemList, Lit, SharedExpr, Text};

/// An argument of a node or a property. The number last in each variant is a place, a byte offset in the
/// script. What stands for a name has the place of that name, but for a lambda, which keeps its own.
#[derive(Drop)]
pub enum Arg {
    /// A literal.
    Lit(Lit, u32),
    /// The star, which stands for every dimension.
    Star(u32),
    /// A lambda with its literals in the place of names, shared by all that its name hands it to; the place
    /// is that of the word `lambda`.
    Lambda(SharedExpr, u32),
    /// A node by its number; the place is that of the name with which its chain begins.
    Node(u32, u32),
}

/// The arguments of a node or a property, in order.
pub type Args = ItemList<Arg>;

/// A property that is set on a node.
#[derive(Drop)]
pub struct Prop {
    /// Its name.
    pub name: Text,
    /// What stands between its parentheses.
    pub args: Args,
    /// The place of its name.
    pub at: u32,
}

/// The properties that are set on a node, in the order of the script.
pub type Props = ItemList<Prop>;

/// A node of a script (Kapacitor 1.6 TICKscript language reference: Nodes), of any kind and with any
/// arguments: what kinds there are, and what they take, isn't asked here.
#[derive(Drop)]
pub struct RawNode {
    /// Its kind, the name behind `|`.
    pub kind: Text,
    /// The number of the node under which it stands. That of the stream is 0, its own.
    pub parent: u32,
    /// What stands between its parentheses.
    pub args: Args,
    /// The properties that are set on it, there and later in the script.
    pub props: Props,
    /// The place of its kind. That of the stream is 0.
    pub at: u32,
}

/// The nodes of a script by their numbers, in the order in which they are made.
pub type RawNodes = ItemList<RawNode>;

/// A script with its names bound.
#[derive(Drop)]
pub struct Bound {
    /// What its `dbrp` statements name.
    pub dbrps: Dbrps,
    /// Its nodes. Node 0 is the stream, of the kind `stream`, without arguments.
    pub nodes: RawNodes,
}
