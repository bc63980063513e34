//! The node of a rule, in its first state.

ghost use Rattle.std.specs.Prelude.{◌≡◌};
ghost use Rattle.node_core.specs.Numbering.{plain_seat, rule_seat};

use crate::alone::{Alone, Plain};
use crate::grouped::Grouped;
use crate::node::Node;
use crate::numbered::{Numbered, Seat};
use crate::rule::Rule;
use std::alloc::Global;

/// The node of a rule for groups.
pub type RuleNode<R> = Numbered<Grouped<R>>;

/// The node of a rule that keeps nothing.
pub type PlainNode<P> = Numbered<Alone<P>>;

/// The node of a rule for groups, in its first state: in a life of its task, and with its number there.
pub fn rule_node<R: Rule + Drop>(alloc: Global, life: u32, node: u32, rule: R) -> RuleNode<R>
    ensures spec { ⟦<RuleNode<R> as Node>⟧.spec result ≡ rule_seat life node rule }
    ensures first { ⟦<RuleNode<R> as Node>⟧.state result
        ≡ ⟦<RuleNode<R> as Node>⟧.first (rule_seat life node rule) }
{
    let kind = Grouped { rule };
    Numbered::new(alloc, Seat { life, node, kind })
}

/// The node of a rule that keeps nothing, in its first state: in a life of its task, and with its number
/// there.
pub fn plain_node<P: Plain + Drop>(alloc: Global, life: u32, node: u32, plain: P) -> PlainNode<P>
    ensures spec { ⟦<PlainNode<P> as Node>⟧.spec result ≡ plain_seat life node plain }
    ensures first { ⟦<PlainNode<P> as Node>⟧.state result
        ≡ ⟦<PlainNode<P> as Node>⟧.first (plain_seat life node plain) }
{
    let kind = Alone { plain };
    Numbered::new(alloc, Seat { life, node, kind })
}
