//! What holds of definitions: laws, and no code.

ghost use Rattle.std.specs.Prelude.{◌≡◌, ◌↔◌, ◌<◌, ℕ, ℤ, false, List, Some, slice_get};
ghost use Rattle.kap_base.specs.Groups.{group_of};
ghost use Rattle.kap_base.specs.Points.{PointValue};
ghost use Rattle.node_core.specs.Groups.{Came};
ghost use Rattle.task_graph.specs.declared.spec.JoinSpec.{JoinSpec};
ghost use Rattle.join_node.specs.Joins.{is_late, latest, own_set, parents};
ghost use Rattle.join_node.specs.Latest.{IsGreatest};
ghost use Rattle.join_node.specs.Rows.{LatePoint, NoFill, OpenSets};
ghost use Rattle.join_node.specs.Unions.{regrouped, renamed};

/// The group of a point under another measurement is its group under that measurement, where points are
/// grouped by it.
#[tactic(auto, using(crate::specs::Unions::group_renamed))]
pub fn renamed_points_change_groups()
    ensures { (name : List ℕ) (p : PointValue)
        → group_of (renamed (Some name) p) ≡ regrouped name (group_of p) }
{}

/// The rounded time at which sets wait is the greatest of points: that of one of them, and none has a greater
/// one.
pub fn sets_wait_at_the_greatest_time()
    ensures { (j : JoinSpec) (cs : List Came) (time : ℤ)
        → (latest j cs ≡ Some time) ↔ IsGreatest j cs time }
{}

/// A point of a parent that isn't late stands in its own set, at its parent's place.
pub fn points_are_in_their_sets()
    ensures { (j : JoinSpec) (before : List Came) (port : ℕ) (p : PointValue)
        → port < parents j → is_late j before (port, p) ≡ false
        → slice_get (own_set j before (port, p)) port ≡ Some (Some p) }
{}

/// Examples of what joins say of points, by their times.
pub fn examples_of_joins()
    ensures late_point { LatePoint }
    ensures open_sets { OpenSets }
    ensures no_fill { NoFill }
{}
