//! Laws of captures, and no code.

ghost use Rattle.std.specs.Prelude.{◌≡◌, ℕ, ◌+◌, ◌<◌, ◌≤◌, [], ◌∷◌, ◌++◌, Contains, IsPermutation, List, length, map, true};
ghost use Rattle.std.specs.List.{AllByRecursion as Each, AllZip};
ghost use Rattle.kap_base.specs.Points.{PointValue};
ghost use Rattle.kap_base.specs.declared.items.Effect.{Effect};
ghost use Rattle.kap_base.specs.declared.items.Msg.{Msg};
ghost use Rattle.kap_base.specs.declared.items.Stamp.{Stamp};
ghost use Rattle.flow_cells.specs.declared.parts.CellParts.{CellParts};
ghost use Rattle.flow_cells.specs.Kept.{HasKept, Keeps};
ghost use Rattle.flow_life.specs.Loads.{has_inner};
ghost use Rattle.flow_core.specs.Making.{AreLivesOf, IsLifeBehind};
ghost use Rattle.flow_core.specs.Messages.{AreMarksOf, load_messages};
ghost use Rattle.flow_core.specs.Nets.{IsResting, NetValue, NumberedLife, plans_from, plans_in, specs_in};
ghost use Rattle.flow_core.specs.Done.{HasGathered};
ghost use Rattle.flow_core.specs.Sorting.{AreRising, AreSorted};
ghost use Rattle.merge_node.specs.Merge.{barriers};
ghost use Rattle.task_run.specs.Plans.{AreFirstNodes, AreFirstStates, PlanValue};
ghost use Rattle.barrier_snapshot.specs.Barriers.{HavePassed, IsCaptureAt, WasAt, cells_in};
ghost use Rattle.barrier_snapshot.specs.Captures.{IsCapture, in_lives};
ghost use Rattle.barrier_snapshot.specs.Faults.{FaultsAt};
ghost use Rattle.barrier_snapshot.specs.GoingOn.{HasGoneOn};
ghost use Rattle.barrier_snapshot.specs.Loading.{IsSameLife};
ghost use Rattle.barrier_snapshot.specs.Restoring.{Restores};
ghost use Rattle.barrier_snapshot.specs.Resuming.{AreLoadedWith, DidTheRestOf, DidTheSame, IsAlike, IsPlannedAgain, StandsBehind, effects_behind};
ghost use Rattle.barrier_snapshot.specs.Steady.{HasSteadyStream, HasSteadyStreams};

use node_core::Node;

/// Bytes are a capture of one list of states at most. So a net that is restored from what was
/// captured of another one, of lives with the same nodes, has each node in the state in which it
/// was at the barrier, whether the other net was at rest or not. It has passed the barrier behind
/// which it is restored, so that it can be captured there.
pub fn captures_are_restored<N: Node>()
    ensures one { (specs : List N.Spec) (states others : List N.State) (bytes : List ℕ)
        → IsCapture N.fits N.spell specs states bytes
        → IsCapture N.fits N.spell specs others bytes → states ≡ others }
    ensures same { (upto : Stamp) (cells : List (CellParts N)) (plans : List (PlanValue N))
        (there : Stamp) (bytes : List ℕ) (net : NetValue N)
        → in_lives N.spec plans ≡ map (λ c. N.spec c.core.node) cells
        → IsCaptureAt N.Node upto cells bytes → Restores N.Node plans there bytes net
        → AllZip (WasAt N.Node upto) cells (map (λ c. N.state c.core.node) (cells_in net.lives)) }
    ensures passed { (plans : List (PlanValue N)) (there : Stamp) (bytes : List ℕ)
        (net : NetValue N) → Restores N.Node plans there bytes net
        → HavePassed N.Node there (cells_in net.lives) }
{}

/// Bytes have one place at most that a fault can name, and a capture has none.
pub fn faults_have_places<N: Node>()
    ensures one { (specs : List N.Spec) (bytes : List ℕ) (a b : ℕ)
        → FaultsAt N.fits N.spell specs bytes a → FaultsAt N.fits N.spell specs bytes b → a ≡ b }
    ensures none { (specs : List N.Spec) (states : List N.State) (bytes : List ℕ) (offset : ℕ)
        → IsCapture N.fits N.spell specs states bytes
        → FaultsAt N.fits N.spell specs bytes offset → ⊥ }
{}

/// Streams whose nodes no input changes are steady: in a net of plans that is loaded, for each
/// barrier of the load, and as long as the nodes and their load stay.
pub fn streams_are_steady<N: Node>()
    ensures loaded { (upto : Stamp) (msgs : List Msg) (plans : List (PlanValue N))
        (lives after : List (NumberedLife N)) → AreLivesOf N.Node plans lives
        → Each (HasSteadyStream N.Node) plans → Contains (barriers msgs) upto
        → plans_in N.Node after ≡ plans_from N.Node msgs lives
        → specs_in N.Node after ≡ specs_in N.Node lives → HasSteadyStreams N.Node upto after }
    ensures same { (upto : Stamp) (lives after : List (NumberedLife N))
        → plans_in N.Node after ≡ plans_in N.Node lives
        → specs_in N.Node after ≡ specs_in N.Node lives
        → HasSteadyStreams N.Node upto lives → HasSteadyStreams N.Node upto after }
{}

/// A cell whose node was in a state at a barrier stands where the same node stands that goes on from
/// this state, over what the cell handled behind the barrier: its state, its effects, and what it gave
/// out.
pub fn cells_go_on<N: Node>()
    ensures { (upto passed : Stamp) (c : CellParts N) (s : N.State) → Keeps N.Node c
        → (was : WasAt N.Node upto c s) → HasGoneOn N.Node upto passed c s was }
{}

/// Lives of plans are planned again by plans of the same lives, and stay so in a load.
pub fn lives_are_planned<N: Node>()
    ensures begun { (stamp : ℕ) (first plan : PlanValue N) (life : NumberedLife N)
        → IsLifeBehind N.Node stamp first life → IsSameLife N.spec first plan
        → IsPlannedAgain N.Node life plan }
    ensures made { (first plans : List (PlanValue N)) (lives : List (NumberedLife N))
        → AreLivesOf N.Node first lives → AllZip (IsSameLife N.spec) first plans
        → AllZip (IsPlannedAgain N.Node) lives plans }
    ensures loaded { (msgs : List Msg) (plans : List (PlanValue N))
        (before after : List (NumberedLife N)) → AllZip (IsPlannedAgain N.Node) before plans
        → AreLoadedWith N.Node msgs before after → AllZip (IsPlannedAgain N.Node) after plans }
{}

/// Lives stand behind a barrier, in states that inputs make: those of plans in first states behind
/// the one with which they began, those at rest behind a load behind its last barrier, and those of
/// a net that is restored from what was captured of such lives behind the one at which it stands.
pub fn lives_stand<N: Node>()
    ensures begun { (stamp : ℕ) (plan : PlanValue N) (life : NumberedLife N)
        → IsLifeBehind N.Node stamp plan life
        → AreFirstNodes N.spec N.state N.first plan.nodes → StandsBehind N.Node stamp life }
    ensures made { (plans : List (PlanValue N)) (lives : List (NumberedLife N))
        → AreLivesOf N.Node plans lives → AreFirstStates N.spec N.state N.first plans
        → Each (StandsBehind N.Node 0) lives }
    ensures loaded { (stamp : ℕ) (points : List PointValue) (last : Stamp) (marks : List Stamp)
        (before after : List (NumberedLife N)) → length points ≤ last.0
        → Each (StandsBehind N.Node stamp) before
        → AreLoadedWith N.Node (load_messages points last marks) before after
        → Each IsResting after → Each (StandsBehind N.Node last.0) after }
    ensures restored { (upto : Stamp) (plans : List (PlanValue N)) (there : Stamp) (bytes : List ℕ)
        (stopped : List (NumberedLife N)) (restored : NetValue N)
        → IsCaptureAt N.Node upto (cells_in stopped) bytes
        → AllZip (IsPlannedAgain N.Node) stopped plans
        → Restores N.Node plans there bytes restored
        → (stamp : ℕ) (msgs : List Msg) (before : List (NumberedLife N))
        → Each (StandsBehind N.Node stamp) before → AreLoadedWith N.Node msgs before stopped
        → Each (StandsBehind N.Node there.0) restored.lives }
{}

/// Where the states at a barrier can be had: lives that stand behind it can be captured there; and
/// where a load has barriers inside, each cell has kept its state at the last one that it has passed,
/// whatever steps were made.
pub fn states_are_kept<N: Node>()
    ensures behind { (there : Stamp) (lives : List (NumberedLife N))
        → Each (StandsBehind N.Node there.0) lives → HavePassed N.Node there (cells_in lives) }
    ensures inside { (msgs : List Msg) (before after : List (NumberedLife N))
        → has_inner msgs ≡ true → AreLoadedWith N.Node msgs before after
        → Each HasKept (cells_in after) }
{}

/// What is captured of a net is restored as one that goes on as the first one goes on.
///
/// `behind`: a net is loaded with points, and stopped where each cell with parents stands at an
/// inner barrier. From what is captured of it there another net is restored, of lives with the same
/// nodes, and loaded with the points behind the barrier. When both are at rest, each node of the
/// other net is in the state of the first one's, each of its cells has the effects of the first
/// one's with stamps above the barrier, and each of its edges carried what the first one's carried
/// behind it.
///
/// `rest`: what is restored from a capture of a net at rest, at the last barrier of its load, is
/// alike.
///
/// `same`: lives that are alike do the same in each load, and are alike behind it.
pub fn nets_go_on<N: Node>()
    ensures behind { (stamp : ℕ) (points behind : List PointValue) (upto last : Stamp)
        (marks later : List Stamp) (plans : List (PlanValue N)) (there : Stamp) (bytes : List ℕ)
        (before stopped rested : List (NumberedLife N)) (restored : NetValue N)
        (resumed : List (NumberedLife N))
        → stamp + length (points ++ behind) ≤ last.0 → upto.0 + length behind ≡ last.0
        → AreMarksOf (points ++ behind) last (marks ++ upto ∷ later)
        → Each (StandsBehind N.Node stamp) before
        → AreLoadedWith N.Node (load_messages (points ++ behind) last (marks ++ upto ∷ later))
        before stopped
        → AreLoadedWith N.Node (load_messages (points ++ behind) last (marks ++ upto ∷ later))
        before rested
        → Each IsResting rested
        → IsCaptureAt N.Node upto (cells_in stopped) bytes
        → AllZip (IsPlannedAgain N.Node) stopped plans
        → Restores N.Node plans there bytes restored
        → AreLoadedWith N.Node (load_messages behind last later) restored.lives resumed
        → Each IsResting resumed
        → DidTheRestOf N.Node upto rested resumed }
    ensures rest { (upto : Stamp) (plans : List (PlanValue N)) (there : Stamp) (bytes : List ℕ)
        (stopped : List (NumberedLife N)) (restored : NetValue N)
        → IsCaptureAt N.Node upto (cells_in stopped) bytes
        → AllZip (IsPlannedAgain N.Node) stopped plans
        → Restores N.Node plans there bytes restored
        → (stamp : ℕ) (points : List PointValue) (marks : List Stamp)
        (before : List (NumberedLife N)) → stamp < upto.0 → length points ≤ upto.0
        → AreMarksOf points upto marks → Each (StandsBehind N.Node stamp) before
        → AreLoadedWith N.Node (load_messages points upto marks) before stopped
        → Each IsResting stopped → AllZip (IsAlike N.Node) stopped restored.lives }
    ensures same { (msgs : List Msg) (before other rested resumed : List (NumberedLife N))
        → AllZip (IsAlike N.Node) before other
        → AreLoadedWith N.Node msgs before rested → AreLoadedWith N.Node msgs other resumed
        → Each IsResting rested → Each IsResting resumed
        → AllZip (DidTheSame N.Node) rested resumed }
{}

/// What is collected of a net that was restored is what is collected of the one that went on, behind
/// the barrier.
///
/// `behind`: one net did what another one did behind a barrier, as `nets_go_on` says. Then what was
/// collected of it since its load, and what wasn't yet, are the effects of the other one with stamps
/// above the barrier.
///
/// `in_order`: once all was collected of both, and of the restored one by one call, its list is that
/// of the other one without the effects up to the barrier: the same effects in the same order. No two
/// effects of the other one stand at one place in the order of `collect`; so it is where nodes number
/// their effects (`rises` of `net_epochs::epochs_go_on`).
///
/// `same`, `same_in_order`: alike of nets that did the same since their load.
pub fn nets_collect_alike<N: Node>()
    ensures behind { (upto : Stamp) (whole rest : NetValue N) (all late : List Effect)
        → DidTheRestOf N.Node upto whole.lives rest.lives
        → HasGathered all whole → HasGathered late rest
        → IsPermutation (effects_behind upto (all ++ whole.gathered)) (late ++ rest.gathered) }
    ensures in_order { (upto : Stamp) (whole rest : NetValue N) (all late : List Effect)
        → DidTheRestOf N.Node upto whole.lives rest.lives
        → HasGathered all whole → whole.gathered ≡ [] → AreRising all
        → HasGathered late rest → rest.gathered ≡ [] → AreSorted late
        → late ≡ effects_behind upto all }
    ensures same { (whole rest : NetValue N) (all late : List Effect)
        → AllZip (DidTheSame N.Node) whole.lives rest.lives
        → HasGathered all whole → HasGathered late rest
        → IsPermutation (all ++ whole.gathered) (late ++ rest.gathered) }
    ensures same_in_order { (whole rest : NetValue N) (all late : List Effect)
        → AllZip (DidTheSame N.Node) whole.lives rest.lives
        → HasGathered all whole → whole.gathered ≡ [] → AreRising all
        → HasGathered late rest → rest.gathered ≡ [] → AreSorted late → late ≡ all }
{}
