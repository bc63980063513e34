//! What a node is: what it says of what arrives, how this is stamped and numbered, and how a node is made of
//! a rule for one group, or of what is done with each body by itself.
#![tactic(auto)]

mod alone;
mod both;
mod build;
mod few;
mod grouped;
mod key;
mod kind;
mod laws;
mod node;
mod numbered;
mod rule;
mod running;
mod runs;
mod said;
mod table;

pub use alone::{Alone, Plain};
pub use both::Both;
pub use build::{PlainNode, RuleNode, plain_node, rule_node};
pub use few::Few;
pub use grouped::Grouped;
use kap_base::{Effect, Item, ItemList};
pub use key::Key;
pub use kind::Kind;
pub use laws::{numbers_count_effects, one_key_one_group};
pub use node::Node;
pub use numbered::{Numbered, Seat};
pub use rule::Rule;
pub use running::{Running, Tally};
pub use runs::run;
pub use said::{Said, pass, pass_if, pass_new};
pub use table::Table;

/// A list of items.
pub type Items = ItemList<Item>;

/// A list of effects.
pub type Effects = ItemList<Effect>;
