//! What the numbers of evaluations of an `eval` are: laws, and no code.

ghost use Rattle.std.specs.Prelude.{◌≡◌, ℕ, List, slice_index};
ghost use Rattle.kap_base.specs.Tree.{Tree};
ghost use Rattle.node_core.specs.Groups.{Came};
ghost use Rattle.task_graph.specs.declared.spec.EvalSpec.{EvalSpec};
ghost use Rattle.eval_node.specs.Evals.{counts_in, evaluations};
ghost use Rattle.eval_node.specs.Rows.{FaultIsDropped, KeepAll, KeepNames, LaterAreNotEvaluated, ResultsAlone};

/// The number of a lambda is the number of points of the group at which it was evaluated, which are those at
/// which each lambda before it had a value.
pub fn counts_are_evaluations()
    ensures { (eval : EvalSpec Tree) (place : ℕ) (points : List Came)
        → slice_index (counts_in eval points) place ≡ evaluations eval place points }
{}

/// Examples of what an `eval` evaluates, and of what it keeps.
pub fn examples_of_evals()
    ensures fault_is_dropped { FaultIsDropped }
    ensures later_are_not_evaluated { LaterAreNotEvaluated }
    ensures results_alone { ResultsAlone }
    ensures keep_all { KeepAll }
    ensures keep_names { KeepNames }
{}
