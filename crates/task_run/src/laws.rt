//! Laws of whole lists, and no code.

ghost use Rattle.std.specs.List.{AllZip};
ghost use Rattle.std.specs.Prelude.{◌≡◌, ℕ, suc, ◌+◌, ◌<◌, List, [], ◌∷◌, ◌++◌, flat_map, length, slice_index_or};
ghost use Rattle.kap_base.specs.Points.{PointValue};
ghost use Rattle.kap_base.specs.declared.items.Item.{Item};
ghost use Rattle.node_core.specs.Meaning.{nothing};
ghost use Rattle.task_run.specs.Courses.{Course, Goes, begun, course_effects, from_first, later_effects};
ghost use Rattle.task_run.specs.EffectOrder.{AreInOrder, LivesNumbered};
ghost use Rattle.task_run.specs.Graphs.{Placed, graph_gives, node_gives, outs_of, stamped_from};
ghost use Rattle.task_run.specs.Lives.{effects_of, effects_with, life_effects_with};
ghost use Rattle.task_run.specs.Merging.{merged, stamps};
ghost use Rattle.task_run.specs.Order.{AreOrdered, from_port};
ghost use Rattle.task_run.specs.Plans.{AreBelow};
ghost use Rattle.task_run.specs.Stamps.{IsStream, of_item};

use node_core::Node;

/// Merged lists stand by stamp, then by port, and each list is what came at its port, in order, where its
/// stamps are those of n points and don't fall.
#[tactic(auto, using(crate::proofs::OrderLaws::merged_ordered, crate::proofs::OrderLaws::merged_has))]
pub fn merging_orders()
    ensures ordered { (n : ℕ) (lists : List (List Item)) → AreOrdered (merged n lists) }
    ensures has { (n port : ℕ) (lists : List (List Item))
        → IsStream of_item n (slice_index_or lists port [])
        → from_port port (merged n lists) ≡ slice_index_or lists port [] }
{}

/// What a node gives is its function of the merged lists that its parents give out, which are earlier nodes;
/// and the stamps of what it gives out are those of the points and don't fall.
pub fn nodes_give_by_parents<N: Node>()
    ensures parents { (points : List PointValue) (nodes : List (Placed N.Spec)) (i : ℕ)
        (d : Placed N.Spec) → i < length nodes → AreBelow i (slice_index_or nodes i d).parents
        → slice_index_or (graph_gives N.answer points nodes) i nothing
        ≡ node_gives N.answer (length points) (stamped_from 1 points)
        (graph_gives N.answer points nodes) (slice_index_or nodes i d) }
    ensures streams { (points : List PointValue) (nodes : List (Placed N.Spec)) (i : ℕ)
        → IsStream of_item (length points)
        (slice_index_or (outs_of (graph_gives N.answer points nodes)) i []) }
{}

/// The effects of one point more are those with its stamp, behind the others. Those of lives that are
/// numbered from 1 on, each with its nodes numbered by their places, stand by stamp, with one stamp by life,
/// and in one life by node. And the effects of a node with one stamp after the other are all that it gives.
pub fn effects_go_on<N: Node>()
    ensures more { (lives : List (List (Placed N.Spec))) (points : List PointValue) (p : PointValue)
        → effects_of N.answer lives (points ++ p ∷ [])
        ≡ effects_of N.answer lives points
        ++ life_effects_with N.answer (suc (length points)) lives (points ++ p ∷ []) }
    ensures ordered { (lives : List (List (Placed N.Spec))) (points : List PointValue)
        → LivesNumbered N.life N.number 1 lives → AreInOrder (effects_of N.answer lives points) }
    ensures whole { (points : List PointValue) (nodes : List (Placed N.Spec)) (i : ℕ)
        → flat_map
        (λ s. effects_with s (slice_index_or (graph_gives N.answer points nodes) i nothing).effects)
        (stamps (length points))
        ≡ (slice_index_or (graph_gives N.answer points nodes) i nothing).effects }
{}

/// Behind so many points lives have given effects. Where more points come, which the open lives see, the
/// effects of all are those before, and then those with the later stamps. A life that begins has given none.
/// And the effects of lives that all begin at the first point are those of the lives on all points.
pub fn courses_go_on<N: Node>()
    ensures more { (n : ℕ) (new : List PointValue) (before after : List (Course N.Spec))
        → AllZip (Goes n new) before after
        → course_effects N.answer (n + length new) after
        ≡ course_effects N.answer n before ++ later_effects N.answer n (length new) after }
    ensures begin { (n base : ℕ) (nodes : List (Placed N.Spec)) (courses : List (Course N.Spec))
        → course_effects N.answer n (courses ++ begun base nodes ∷ [])
        ≡ course_effects N.answer n courses }
    ensures first { (lives : List (List (Placed N.Spec))) (points : List PointValue)
        → course_effects N.answer (length points) (from_first points lives)
        ≡ effects_of N.answer lives points }
{}
