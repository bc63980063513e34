//! What the nodes of scripts answer: laws, and no code.

ghost use Rattle.std.specs.Prelude.{◌≡◌, ℕ, List};
ghost use Rattle.kap_base.specs.Tree.{Tree};
ghost use Rattle.node_core.specs.Numbering.{stamped};
ghost use Rattle.state_code.specs.Spelling.{IsSpelling};
ghost use Rattle.task_graph.specs.declared.spec.Spec.{Spec};
ghost use Rattle.node_set.specs.Nodes.{AnySpec, any_spec};
ghost use Rattle.node_set.specs.Says.{ports_of, says_of, takes_of};

use crate::kinds::AnyNode;
use node_core::Node;

/// The node of what a script hands to one of this name under so many parents, in a task of this id, in a life
/// of it and with a number there: what it answers is what its kind says, one line a kind in `says_of`,
/// stamped and numbered; that life and that number are its own; it has one port, a union and a join one for
/// each parent; and points are for it, for a select batches.
pub fn nodes_answer_by_kind()
    ensures answer { (task : List ℕ) (life number : ℕ) (name : List ℕ) (count : ℕ)
        (spec : Spec Tree) → ⟦<AnyNode as Node>⟧.answer (any_spec task life number name count spec)
        ≡ stamped life number (says_of task name spec) }
    ensures life { (task : List ℕ) (life number : ℕ) (name : List ℕ) (count : ℕ)
        (spec : Spec Tree)
        → ⟦<AnyNode as Node>⟧.life (any_spec task life number name count spec) ≡ life }
    ensures number { (task : List ℕ) (life number : ℕ) (name : List ℕ) (count : ℕ)
        (spec : Spec Tree)
        → ⟦<AnyNode as Node>⟧.number (any_spec task life number name count spec) ≡ number }
    ensures ports { (task : List ℕ) (life number : ℕ) (name : List ℕ) (count : ℕ)
        (spec : Spec Tree) → ⟦<AnyNode as Node>⟧.ports (any_spec task life number name count spec)
        ≡ ports_of count spec }
    ensures takes { (task : List ℕ) (life number : ℕ) (name : List ℕ) (count : ℕ)
        (spec : Spec Tree) → ⟦<AnyNode as Node>⟧.takes (any_spec task life number name count spec)
        ≡ takes_of spec }
{}

/// What is spelled of a node's state is read again, whatever follows, and only what is spelled is read.
fn node_spelled<N: Node>()
    ensures { (spec : N.Spec) → IsSpelling (N.fits spec) (N.spell spec) (N.read spec) }
{}

/// The state of a node that has a spelling is read again from it, whatever follows, and only what is spelled
/// is read.
pub fn states_are_read_again()
    ensures { (seat : AnySpec) → IsSpelling (⟦<AnyNode as Node>⟧.fits seat)
        (⟦<AnyNode as Node>⟧.spell seat) (⟦<AnyNode as Node>⟧.read seat) }
{
    node_spelled::<AnyNode>();
}
