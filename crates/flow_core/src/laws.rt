//! Laws of nets, and no code.

ghost use Rattle.std.specs.Prelude.{◌≡◌, ℕ, ◌≤◌, [], ◌∷◌, ◌++◌, List, length};
ghost use Rattle.kap_base.specs.Points.{PointValue};
ghost use Rattle.kap_base.specs.declared.items.Effect.{Effect};
ghost use Rattle.kap_base.specs.declared.items.Stamp.{Stamp};
ghost use Rattle.node_core.specs.Meaning.{Saying};
ghost use Rattle.node_core.specs.Numbering.{stamped};
ghost use Rattle.merge_node.specs.Merge.{IsClosed, RisesFrom, barriers, items};
ghost use Rattle.flow_cells.specs.Outs.{item_msgs};
ghost use Rattle.flow_core.specs.Done.{GathersAll, HasGathered, effects_in};
ghost use Rattle.flow_core.specs.Gathering.{NumbersEffects};
ghost use Rattle.flow_core.specs.Messages.{AreMarksOf, load_messages, stamped_up_to};
ghost use Rattle.flow_core.specs.Nets.{NetValue};

use node_core::Node;

/// The messages of a load have the points, with the stamps that end at the last one, and the barriers of the
/// marks and of the last stamp, all of them in the order of their stamps, each barrier behind the points up
/// to it, and one behind each point.
pub fn loads_have_messages()
    ensures items { (points : List PointValue) (upto : Stamp) (marks : List Stamp)
        → items (load_messages points upto marks) ≡ item_msgs (stamped_up_to upto points) }
    ensures barriers { (points : List PointValue) (upto : Stamp) (marks : List Stamp)
        → length points ≤ upto.0 → AreMarksOf points upto marks
        → barriers (load_messages points upto marks) ≡ marks ++ upto ∷ [] }
    ensures order { (points : List PointValue) (upto : Stamp) (marks : List Stamp)
        → length points ≤ upto.0 → RisesFrom 0 (load_messages points upto marks) }
    ensures closed { (points : List PointValue) (upto : Stamp) (marks : List Stamp)
        → IsClosed (load_messages points upto marks) }
{}

/// A node numbers its effects that says them as `stamped` numbers them: those of one stamp by their places.
pub fn stamped_effects_are_numbered()
    ensures { (life node : ℕ) (saying : Saying) → NumbersEffects (stamped life node saying) }
{}

/// Behind a load of any net of which all was collected before, whatever its nodes had done till then, what it
/// has gathered is what its cells have done since the load; and behind steps that is what was collected since
/// the load and what wasn't yet.
pub fn effects_are_gathered<N: Node>()
    ensures loaded { (before after : NetValue N) → before.gathered ≡ []
        → after.gathered ≡ before.gathered ++ effects_in after.lives → HasGathered [] after }
    ensures moved { (collected : List Effect) (before after : NetValue N)
        → HasGathered collected before
        → GathersAll (effects_in before.lives) (effects_in after.lives)
        before.gathered after.gathered → HasGathered collected after }
{}
