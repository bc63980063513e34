//! Laws of snapshots, and no code.

ghost use Rattle.std.specs.Prelude.{◌≡◌, ℕ, ◌<◌, ◌≤◌, List, length, map};
ghost use Rattle.std.specs.List.{AllByRecursion as Each, AllZip};
ghost use Rattle.kap_base.specs.Points.{PointValue};
ghost use Rattle.kap_base.specs.declared.items.Stamp.{Stamp};
ghost use Rattle.task_run.specs.Courses.{Course, end_of};
ghost use Rattle.task_run.specs.Plans.{IsPlan, PlanValue, graph_of};
ghost use Rattle.flow_core.specs.Messages.{AreMarksOf, load_messages};
ghost use Rattle.flow_core.specs.Nets.{IsResting, NetValue, NumberedLife};
ghost use Rattle.net_epochs.specs.Epochs.{IsOnCourse, NumbersRise, StandsAt, nodes_in};
ghost use Rattle.barrier_snapshot.specs.Barriers.{IsCaptureAt, cells_in};
ghost use Rattle.barrier_snapshot.specs.Restoring.{Restores};
ghost use Rattle.barrier_snapshot.specs.Resuming.{AreLoadedWith, RestsBehind, StandsBehind};
ghost use Rattle.barrier_snapshot.specs.Snapshots.{IsSnapshot};

use node_core::Node;

/// Lives that are restored from a snapshot, by plans of the same nodes, are where their points had brought
/// them there; a net that is restored behind the last of these points stands behind them. And what is
/// captured of lives at rest behind a barrier, whether they began there or came there, is a snapshot of where
/// their points have brought them.
pub fn snapshots_are_whole<N: Node>()
    ensures restored { (plans : List (PlanValue N)) (there : Stamp) (bytes : List ℕ)
        (net : NetValue N) (courses : List (Course N.Spec))
        → Restores N.Node plans there bytes net
        → map (graph_of N.spec) plans ≡ nodes_in courses → IsSnapshot N.Node courses bytes
        → AllZip (IsOnCourse N.Node) courses net.lives }
    ensures stands { (plans : List (PlanValue N)) (there : Stamp) (bytes : List ℕ)
        (net : NetValue N) (courses : List (Course N.Spec))
        → Restores N.Node plans there bytes net
        → map (graph_of N.spec) plans ≡ nodes_in courses → IsSnapshot N.Node courses bytes
        → Each (λ c. end_of c ≡ there.0) courses
        → Each (IsPlan N.spec N.ports N.life N.number) plans
        → NumbersRise 0 (map (λ plan. plan.life) plans) → StandsAt N.Node there.0 courses net }
    ensures came { (stamp : ℕ) (points : List PointValue) (upto : Stamp) (marks : List Stamp)
        (before after : List (NumberedLife N)) → stamp < upto.0 → length points ≤ upto.0
        → AreMarksOf points upto marks → Each (StandsBehind N.Node stamp) before
        → AreLoadedWith N.Node (load_messages points upto marks) before after
        → Each IsResting after → Each (RestsBehind N.Node upto) after }
    ensures captured { (upto : Stamp) (courses : List (Course N.Spec)) (bytes : List ℕ)
        (lives : List (NumberedLife N)) → Each (RestsBehind N.Node upto) lives
        → AllZip (IsOnCourse N.Node) courses lives
        → IsCaptureAt N.Node upto (cells_in lives) bytes → IsSnapshot N.Node courses bytes }
{}
