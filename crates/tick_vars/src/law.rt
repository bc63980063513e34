//! What binding comes to, without the way there.

ghost use Rattle.std.specs.Prelude.{◌≡◌, List, Ok, Err};
ghost use Rattle.tick_parser.specs.Trees.{StmtTree};
ghost use Rattle.tick_vars.specs.Binding.{bound_of};
ghost use Rattle.tick_vars.specs.FirstFault.{HasFirstNameFault};
ghost use Rattle.tick_vars.specs.Law.{IsSettled, IsWellNamed, as_written};
ghost use Rattle.tick_vars.specs.Nodes.{BoundTree};
ghost use Rattle.tick_vars.specs.declared.fault.VarFault.{VarFault};

/// A script that has no fault is bound as it is written. Behind the stream stand the nodes that its `|` make,
/// in order, each with its kind, its place, its arguments and the properties that are set on it, under the
/// node from which its chain goes on. Each name is what it stands for in the end. A node's parent and the
/// nodes among its arguments have lower numbers than its own, and no name is left in a lambda.
pub fn bound_as_written()
    ensures written { (script : List StmtTree) (bound : BoundTree) → bound_of script ≡ Ok bound →
        bound ≡ as_written script }
    ensures settled { (script : List StmtTree) (bound : BoundTree) → bound_of script ≡ Ok bound →
        IsSettled bound }
{}

/// A script has no fault exactly where each name is used behind its `var` and stands for what may stand
/// there, and each `var` declares a new name.
pub fn bound_where_well_named()
    ensures named { (script : List StmtTree) (bound : BoundTree) → bound_of script ≡ Ok bound →
        IsWellNamed script }
    ensures bound { (script : List StmtTree) → IsWellNamed script → (bound : BoundTree) ×
        (bound_of script ≡ Ok bound) }
{}

/// A script is refused for its first fault of names, from left to right, and at its place: behind statements
/// in which each name is as it is needed, the first name of a statement that isn't. Of a name behind `var` it
/// is needed that it is new, of the head of a chain that it stands for a node where something is linked to
/// it, and else for anything, and of a name in a lambda that it stands for a value.
pub fn first_fault_of_names()
    ensures first { (script : List StmtTree) (fault : VarFault) →
        bound_of script ≡ Err fault → HasFirstNameFault script fault }
    ensures only { (script : List StmtTree) (fault : VarFault) →
        HasFirstNameFault script fault → bound_of script ≡ Err fault }
{}
