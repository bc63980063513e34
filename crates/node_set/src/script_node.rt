//! Nodes that scripts make.

ghost use Rattle.std.specs.Prelude.{◌≡◌, ℕ, List, IfOk, length};
ghost use Rattle.kap_base.specs.Tree.{Tree};
ghost use Rattle.task_graph.specs.declared.spec.NodeSpec.{NodeSpec};
ghost use Rattle.node_set.specs.Tasks.{Sits};

use kap_base::{NoMemory, Text};
use node_core::Node;
use std::alloc::Global;
use task_graph::Spec;
use task_run::Ids;

/// A node that a script can make.
pub trait ScriptNode: Node {
    /// What it is, by the node of a script: in a task of an id, in a life of it, and with a number there.
    ghost planned: { List ℕ → ℕ → ℕ → NodeSpec Tree → Self.Spec };

    /// The node that a script makes by handing this to its node of this name with these parents, in its first
    /// state: in a life of the task of this id, and with its number there. `NoMemory` comes where an
    /// allocation fails.
    fn of_script(
        alloc: Global,
        task: &Text,
        life: u32,
        number: u32,
        name: &Text,
        parents: &Ids,
        spec: Spec,
    ) -> Result<Self, NoMemory>
    where
        Self: Sized,
        ensures planned { IfOk result (λ n. Self.spec n ≡ planned task.now life number
            (record { name = name.now; spec = spec; parents = parents.now })) }
        ensures first { IfOk result (λ n. Self.state n ≡ Self.first (planned task.now life number
            (record { name = name.now; spec = spec; parents = parents.now }))) };

    /// It sits in its life with its number, and has a port for each parent.
    ghost sits: { (task : List ℕ) (life number : ℕ) (node : NodeSpec Tree)
        → Sits Self.ports Self.life Self.number life number (length node.parents) node.spec
        (planned task life number node) };
}
