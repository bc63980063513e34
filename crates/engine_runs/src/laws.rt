//! Laws of the lives of a store as they run, and no code.

ghost use Rattle.std.specs.Prelude.{◌≡◌, ℕ, ◌<◌, ◌++◌, List, length, map};
ghost use Rattle.std.specs.List.{AllByRecursion as Each};
ghost use Rattle.kap_base.specs.Points.{PointValue};
ghost use Rattle.kap_base.specs.declared.items.Effect.{Effect};
ghost use Rattle.flow_core.specs.Nets.{numbers_of};
ghost use Rattle.life_effects.specs.Effects.{LivesFit, courses_of, open_courses, stored_effects};
ghost use Rattle.net_epochs.specs.Epochs.{StandsAt};
ghost use Rattle.store_records.specs.Held.{is_open, open_from};
ghost use Rattle.store_records.specs.Histories.{held};
ghost use Rattle.store_records.specs.declared.rec.Rec.{Rec};
ghost use Rattle.store_records.specs.declared.task.Life.{Life};
ghost use Rattle.task_run.specs.Graphs.{Placed};
ghost use Rattle.tick_compile.specs.declared.tasks.Task.{Task};
ghost use Rattle.engine_runs.specs.Later.{AreLater};
ghost use Rattle.engine_runs.specs.Running.{HasRun, RunValue};
ghost use Rattle.engine_runs.specs.Scripts.{AreTasksOf, graphs_from};
ghost use Rattle.engine_runs.specs.Spans.{FirstsRise, Spans, numbers_from, picked};

use node_core::Node;
use node_set::ScriptNode;

/// What holds of the lives of a store behind any records: their first stamps don't fall, and behind more
/// records they are there as before, but that some which were open have ended, and others have begun behind
/// them. The points are those before and more.
pub fn lives_lie_behind_records()
    ensures rise { (rs : List Rec) → FirstsRise (held rs).lives }
    ensures later { (before behind : List Rec) → AreLater (length (held before).points)
        (held before).lives (held (before ++ behind)).lives }
    ensures points { (before behind : List Rec) → (more : List PointValue)
        × ((held (before ++ behind)).points ≡ (held before).points ++ more) }
{}

/// Lives that were there behind k points, seen later. Those that were open run behind these points, by their
/// numbers, on their courses, and the effects so far are what they were.
pub fn lives_go_on_later<N: Node>()
    ensures spans { (k : ℕ) (lives others : List Life) → LivesFit k lives → AreLater k lives others
        → Spans k 0 (map is_open lives) others }
    ensures numbers { (k n : ℕ) (lives others : List Life) → AreLater k lives others
        → picked (map is_open lives) (numbers_from n others) ≡ open_from n lives }
    ensures courses { (k : ℕ) (lives others : List Life) (graphs : List (List (Placed N.Spec)))
        (points : List PointValue) → length points ≡ k → AreLater k lives others
        → picked (map is_open lives) (courses_of others graphs points)
        ≡ open_courses lives graphs points }
    ensures effects { (k : ℕ) (lives others : List Life) (graphs : List (List (Placed N.Spec)))
        (points : List PointValue) → length points ≡ k → AreLater k lives others
        → stored_effects N.answer others graphs points
        ≡ stored_effects N.answer lives graphs points }
{}

/// The effects of more points come behind the others, wherever lives begin and end.
pub fn effects_come_behind<N: Node>()
    ensures { (points new : List PointValue) (lives : List Life)
        (graphs : List (List (Placed N.Spec))) → Each (λ life. 0 < life.first) lives
        → (es : List Effect) × (stored_effects N.answer lives graphs (points ++ new)
        ≡ stored_effects N.answer lives graphs points ++ es) }
{}

/// Behind all points the open lives run, and none of them begins or ends, however many points come.
pub fn open_lives_run<N: ScriptNode>()
    ensures run { (lives : List Life) (tasks : List Task) (points : List PointValue) (n : ℕ)
        (r : RunValue N) → LivesFit (length points) lives
        → HasRun N.Node N.planned lives tasks points 1 r
        → HasRun N.Node N.planned lives tasks points n r }
    ensures numbers { (lives : List Life) (tasks : List Task) (points : List PointValue)
        (r : RunValue N) → LivesFit (length points) lives
        → HasRun N.Node N.planned lives tasks points 1 r
        → numbers_of r.net.lives ≡ open_from 1 lives }
    ensures stands { (lives : List Life) (tasks : List Task) (points : List PointValue)
        (r : RunValue N) → LivesFit (length points) lives
        → HasRun N.Node N.planned lives tasks points 1 r
        → StandsAt N.Node (length points)
        (open_courses lives (graphs_from N.planned 1 lives tasks) points) r.net }
{}

/// Lives that have run on points, and are seen later: those of them that ended since are still in the net, and
/// those that began since are not yet. As these they have run on the same points, with the same effects; none
/// was told of more points.
pub fn lives_run_later<N: ScriptNode>()
    ensures { (lives others : List Life) (tasks more : List Task) (points : List PointValue)
        (n : ℕ) (r : RunValue N) → AreTasksOf lives tasks → AreLater (length points) lives others
        → HasRun N.Node N.planned lives tasks points n r
        → HasRun N.Node N.planned others (tasks ++ more) points 0 r }
{}
