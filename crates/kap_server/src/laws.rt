//! Each text is checked to one status, pairs are tasks or not, and the limits are these numbers: laws, and no
//! code.

ghost use Rattle.std.specs.Prelude.{◌≡◌, ◌⊎◌, ◌≤◌, ◌^◌, [], ℕ, List, Option, None};
ghost use Rattle.edge_queue.specs.declared.TheConstants.{CAPACITY_LIMIT};
ghost use Rattle.kap_base.specs.declared.limits.TheConstants.{ID_LIMIT, SCRIPT_LIMIT, TASK_LIMIT};
ghost use Rattle.effect_text.specs.declared.names.TaskNames.{TaskNames};
ghost use Rattle.engine_runs.specs.Scripts.{AreTasksOf, graphs_from};
ghost use Rattle.engine_runs.specs.Whole.{events_on};
ghost use Rattle.kap_base.specs.Points.{PointValue};
ghost use Rattle.lambda_types.specs.Faults.{Refusal};
ghost use Rattle.life_effects.specs.OpenAlone.{AreOpenAlone, of_open};
ghost use Rattle.line_points.specs.declared.line.TheConstants.{LINE_LIMIT};
ghost use Rattle.net_run.specs.declared.TheConstants.{EPOCH_LIMIT};
ghost use Rattle.net_run.specs.declared.pace.TheConstants.{EFFECT_LIMIT, TEXT_LIMIT};
ghost use Rattle.node_workers.specs.declared.TheConstants.{WORKER_LIMIT};
ghost use Rattle.recording_file.specs.declared.lines.TheConstants.{RECORDING_LIMIT};
ghost use Rattle.sample_points.specs.declared.samples.TheConstants.{SAMPLE_LIMIT};
ghost use Rattle.store_lists.specs.Lists.{transitions_text};
ghost use Rattle.store_records.specs.Histories.{Follow, held};
ghost use Rattle.store_records.specs.declared.rec.Rec.{Rec};
ghost use Rattle.store_records.specs.declared.task.Life.{Life};
ghost use Rattle.task_run.specs.Lives.{effects_of};
ghost use Rattle.tick_compile.specs.declared.tasks.Task.{Task};
ghost use Rattle.topic_core.specs.Topics.{Trans};
ghost use Rattle.kap_server.specs.Checking.{ChecksTo};
ghost use Rattle.kap_server.specs.Exporting.{SayInEachLife, alert_text, open_pairs};
ghost use Rattle.kap_server.specs.Pairs.{AreNoTasks, AreTasks};
ghost use Rattle.kap_server.specs.Runs.{lives_from};
ghost use Rattle.kap_server.specs.Words.{Pair};
ghost use Rattle.kap_server.specs.declared.options.TheConstants.{CAPACITY, WORKERS};
ghost use Rattle.kap_server.specs.declared.status.Status.{Status};

use node_core::Node;
use node_set::{AnyNode, ScriptNode, nodes_answer_by_kind};
use store_records::held_laws;

/// Whichever pattern is refused, if any, a text is checked to one status.
pub fn texts_check_in_one_way()
    ensures some { (refused : Option Refusal) (text : List ℕ)
        → (status : Status) × ChecksTo refused text status }
    ensures one { (refused : Option Refusal) (text : List ℕ) (a b : Status)
        → ChecksTo refused text a → ChecksTo refused text b → a ≡ b }
{}

/// Where no pattern is refused, pairs are some tasks, or the first that is none is none for one reason, and
/// not both.
pub fn pairs_have_one_meaning()
    ensures some { (ids : List (List ℕ)) (pairs : List Pair)
        → ((tasks : List Task) × AreTasks ids pairs tasks)
        ⊎ ((status : Status) × AreNoTasks None ids pairs status) }
    ensures tasks { (ids : List (List ℕ)) (pairs : List Pair) (a b : List Task)
        → AreTasks ids pairs a → AreTasks ids pairs b → a ≡ b }
    ensures refusal { (ids : List (List ℕ)) (pairs : List Pair) (a b : Status)
        → AreNoTasks None ids pairs a → AreNoTasks None ids pairs b → a ≡ b }
    ensures apart { (ids : List (List ℕ)) (pairs : List Pair) (tasks : List Task) (status : Status)
        → AreTasks ids pairs tasks → AreNoTasks None ids pairs status → ⊥ }
{}

/// The limits of the commands, as numbers: of tasks, their ids and scripts; of recordings and their lines; of
/// the points, effects and text of an epoch; of the room of an edge, and the number of workers, and both
/// where no option says them; of sample recordings.
pub fn limits_of_commands()
    ensures tasks { TASK_LIMIT ≡ 64 }
    ensures ids { ID_LIMIT ≡ 64 }
    ensures scripts { SCRIPT_LIMIT ≡ 2 ^ 16 }
    ensures lines { LINE_LIMIT ≡ 2 ^ 16 }
    ensures recordings { RECORDING_LIMIT ≡ 2 ^ 30 }
    ensures epochs { EPOCH_LIMIT ≤ 4096 }
    ensures effects { EFFECT_LIMIT ≡ 2 ^ 13 }
    ensures text { TEXT_LIMIT ≡ 2 ^ 20 }
    ensures capacity { (CAPACITY_LIMIT ≡ 2 ^ 16) × (CAPACITY ≡ 64) }
    ensures workers { (WORKER_LIMIT ≡ 64) × (WORKERS ≡ 4) }
    ensures samples { SAMPLE_LIMIT ≡ 10 ^ 6 }
{}

/// The transitions of a store, whose open lives alone have seen its points and these from the first one on,
/// are those that the same tasks make on the points side by side; and the pairs of the open lives of a store
/// are tasks.
pub fn alerts_are_those_of_a_replay<N: ScriptNode>()
    ensures told { SayInEachLife N.answer N.planned → (names : List TaskNames)
        (points : List PointValue) (lives : List Life) (tasks : List Task)
        → AreOpenAlone points lives
        → transitions_text (Trans (events_on N.answer lives (graphs_from N.planned 1 lives tasks) points))
        ≡ alert_text names (effects_of N.answer
        (lives_from N.planned 1 (open_pairs lives) (of_open lives tasks)) points) }
    ensures pairs { (rs : List Rec) (tasks : List Task) → Follow rs → AreTasksOf (held rs).lives tasks
        → AreTasks [] (open_pairs (held rs).lives) (of_open (held rs).lives tasks) }
{
    held_laws();
}

/// The nodes that scripts make say the same in each life of a task.
pub fn nodes_say_the_same()
    ensures { SayInEachLife ⟦<AnyNode as Node>⟧.answer ⟦<AnyNode as ScriptNode>⟧.planned }
{
    nodes_answer_by_kind();
}
