//! Nodes of a script as they are read: with lambdas of any type `L`, and with the places that faults are
//! given at.

use kap_base::{ItemList, Lit, Text};

/// What is given to a node or a property.
#[derive(Drop)]
pub(crate) enum Given<L> {
    /// A literal.
    Lit(Lit),
    /// The star.
    Star,
    /// A lambda.
    Lambda(L),
    /// A node by its number.
    Node(u32),
}

/// What stands between a pair of parentheses.
pub(crate) type Args<L> = ItemList<Given<L>>;

/// A property that is set on a node.
#[derive(Drop)]
pub(crate) struct Setting<L> {
    pub(crate) name: Text,
    pub(crate) args: Args<L>,
    pub(crate) at: u32,
}

/// The properties that are set on a node, in the order of the script.
pub(crate) type Settings<L> = ItemList<Setting<L>>;

/// A node: its kind, the node under which it stands, its arguments and properties, and the place of its kind.
#[derive(Drop)]
pub(crate) struct Node<L> {
    pub(crate) kind: Text,
    pub(crate) parent: u32,
    pub(crate) args: Args<L>,
    pub(crate) props: Settings<L>,
    pub(crate) at: u32,
}
