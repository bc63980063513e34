//! The commands by their words.

ghost use Rattle.std.specs.Prelude.{◌≡◌, ◌≢◌, ◌⊎◌, ◌≤◌, [], false, true, ℕ, IsTrue, List, None, Some, length, map, string_bytes};
ghost use Rattle.std.specs.Io.KnownBytes.{Keeps};
ghost use Rattle.kap_base.specs.Points.{is_time};
ghost use Rattle.kap_base.specs.Words.{HasRisen};
ghost use Rattle.gate_log.specs.Head.{HasNoHead};
ghost use Rattle.kap_io.specs.Moments.{Moments, Quiet};
ghost use Rattle.kap_io.specs.declared.disk.Part.{Part};
ghost use Rattle.recording_file.specs.Reading.{HasEnded};
ghost use Rattle.recording_file.specs.Recording.{reading_of};
ghost use Rattle.sample_points.specs.Samples.{sample_text};
ghost use Rattle.tick_compile.specs.declared.tasks.Task.{Task};
ghost use Rattle.engine_store.specs.Good.{IsFull, IsGood, stays_or_good};
ghost use Rattle.line_points.specs.declared.mode.Mode.{Mode};
ghost use Rattle.kap_server.specs.Changing.{Changes, Defines, DefinesTo, EndsReading, OpensBehind, OpensToChange, ReadsScript, is_early, record_of};
ghost use Rattle.kap_server.specs.Checking.{Checked, ChecksTo};
ghost use Rattle.kap_server.specs.Command.{AsksForTooMany, AsksToChange, AsksToCheck, AsksToCompact, AsksToDefine, AsksToGenerate, AsksToInit, AsksToReplay, AsksToShow, AsksToSummarize, AsksToWrite};
ghost use Rattle.kap_server.specs.Command.{ExactlyWhere, IsToldRefused, IsUnlessDiskFailed, IsUnlessFailed, IsUnlessStopped, change_status, changes_store, defines};
ghost use Rattle.kap_server.specs.Compacting.{Compacts, OpensToCompact};
ghost use Rattle.kap_server.specs.Exporting.{IsExportable, SayInEachLife, TellsAsReplay};
ghost use Rattle.kap_server.specs.Generating.{Summed, WritesText};
ghost use Rattle.kap_server.specs.Listing.{AreOthers, LeavesFull, Opens, Shows, held_whole, list_text};
ghost use Rattle.kap_server.specs.Making.{HasHead, Made};
ghost use Rattle.kap_server.specs.Nets.{HoldsNetOfSamples, HoldsNetOfTasks};
ghost use Rattle.kap_server.specs.Options.{AreWithinLimits, unit_of};
ghost use Rattle.kap_server.specs.Pairs.{AreNoTasks, AreTasks};
ghost use Rattle.kap_server.specs.Readying.{is_pattern_refused};
ghost use Rattle.kap_server.specs.Runs.{Ran, refusal_of};
ghost use Rattle.kap_server.specs.Statuses.{status_at};
ghost use Rattle.kap_server.specs.Words.{Pair, pairs_of, reads_input, request_in, runs_net, uses_disk, writes_output};
ghost use Rattle.kap_server.specs.Writing.{ReadsLines, Writes, WritesTo};
ghost use Rattle.kap_server.specs.declared.options.ReplayOptions.{ReplayOptions};
ghost use Rattle.kap_server.specs.declared.options.WriteOptions.{WriteOptions};
ghost use Rattle.kap_server.specs.declared.status.Status.{Status};
ghost use Rattle.kap_server.specs.declared.words.Change.{Change};
ghost use Rattle.kap_server.specs.declared.words.Listing.{Listing};
ghost use Rattle.store_records.specs.Held.{has_task};
ghost use Rattle.store_records.specs.Histories.{held};
ghost use Rattle.store_records.specs.declared.rec.Rec.{Rec};
ghost use Rattle.topic_store.specs.Stores.{IsNoStore, Stands};

use crate::changing::{change, define};
use crate::checking::check;
use crate::compacting::compact;
use crate::generating::{write_recording, write_summary};
use crate::listing::list;
use crate::making::init;
use crate::options::ReplayOptions;
use crate::readying::{Ready, add_tasks, are_too_many};
use crate::replaying::replay;
use crate::status::Status;
use crate::ways::way_of;
use crate::words::{Request, request_in};
use crate::writing::write;
use flow_core::Net;
use kap_base::TASK_LIMIT;
use kap_io::{Disk, Gate, Sink, Source};
use lambda_types::Patterns;
use net_run::NumberingNode;
use node_set::ScriptNode;
use sample_points::SAMPLE_LIMIT;
use std::alloc::Global;
use std::thread::Threads;

/// Replays the recording that the input gives, for the tasks of these words.
fn replay_pairs<
    S: Source,
    K: Sink,
    P: Patterns,
    N: ScriptNode + NumberingNode + Send,
    G: Gate + Sync,
    R: Threads + Sync,
>(
    rt: &R,
    alloc: Global,
    options: ReplayOptions,
    words: &[String],
    input: &mut S,
    out: &mut K,
    pats: &mut P,
    gate: &G,
    ran: &mut Option<Net<N>>,
) -> Status
    requires few { length (pairs_of (map string_bytes words.now)) ≤ TASK_LIMIT }
    requires limits { AreWithinLimits options }
    ensures ran { Ran N.answer N.planned (P.refused pats.new) options.counts
        (pairs_of (map string_bytes words.now)) result
        (S.left input.old) (S.left input.new) (K.written out.old) (K.written out.new) }
    ensures net { result ≡ Status.Ok → HoldsNetOfTasks N.Node N.planned
        (pairs_of (map string_bytes words.now)) (S.left input.old) ran.new }
    ensures none { result ≢ Status.Ok → ran.new ≡ ran.old }
    ensures read { result ≡ Status.Ok → HasEnded (S.left input.old) (S.left input.new) }
    ensures read_fault { result ≡ Status.ReadFault
        → HasRisen (S.faults input.old) (S.faults input.new) }
    ensures write_fault { result ≡ Status.WriteFault
        → HasRisen (K.faults out.old) (K.faults out.new) }
    ensures rose { is_pattern_refused result ≡ true
        → HasRisen (P.refusals pats.old) (P.refusals pats.new) }
{
    let mut ready: Ready<N> = Ready {
        names: Vec::new(alloc),
        plans: Vec::new(alloc),
        changes: false,
    };
    match add_tasks(alloc, 1, words, &mut ready, pats) {
        Ok(()) => {
            let Ready {
                names,
                plans,
                changes,
            } = ready;
            let way = way_of(rt, gate, options, plans.len());
            replay(
                alloc, options, &names, plans, !changes, &way, input, out, ran,
            )
        }
        Err(status) => status,
    }
}

/// Does what the words of the command line ask for (this project; after Kapacitor 1.6's `replay`):
///
/// - `check`: it reads a script from the input, and writes its canonical form, where it is a task's. A script
///   has at most 65,536 bytes.
/// - `replay [--workers W] [--capacity C] [--schedule N] [--counts] ID SCRIPT [ID SCRIPT]..`, where each ID
///   names a task (1 to 64 ASCII letters, digits, `_`, `-` and `.`; the first doesn't begin with `--`), and
///   SCRIPT is the task's script: it reads a recording from the input, and writes the lines of the points
///   that the tasks log and of the changes of level of their alerts, in order of the points that caused them,
///   then of the tasks, then of their nodes; behind them, with `--counts`, how many points each node dropped.
///   There are at most 64 tasks. The points go through a net of the nodes, whose edges have room for C
///   messages, from 1 to 65,536, or 64. W workers in threads move it, from 1 to 64, or one a task and at most
///   4; with `--schedule` one thread does, in the order that N gives, from 0 to 4,294,967,295. What is
///   written is the same for each W, C and N. The options stand in any order, each at most once.
/// - `gen N`: it writes the sample recording of N points, from 1 to 1,000,000: a point a second, of one of
///   eight hosts in turn.
/// - `gen N ID SCRIPT [ID SCRIPT]..`: it writes a summary of a replay of this recording: the numbers of
///   points, of lines of logged points and of lines of changes of level, and how many bytes these lines have.
///   Workers move the net, one a task and at most 4.
/// - `init`: it makes an empty store on the disk, where no head of one stands there. After DiskFault and
///   NoMemory nothing is known of the files, unless a head stood there: then they are as they were.
/// - `tasks`, `topics`, `alerts`, `export`: it opens the store on the disk, restores the lives of its tasks,
///   stores the transitions of its points that are missing, and then writes: a line `ID enabled` or `ID
///   disabled` for each task, in byte order of their ids; a line `topic LEVEL TOPIC` for each topic, with the
///   greatest level of its ids, and behind it a line `id LEVEL ID` for each of these, in byte order; the lines
///   of all transitions; or the recording of all points. At most 4 workers move the net. A disk that holds
///   no right store is left as it is, and the place is told.
/// - `define ID`: it reads a script from the input, and defines a task by it, which isn't enabled, in the store
///   on the disk. A store has at most 64 tasks, and each has an id of its own.
/// - `enable ID`, `disable ID`, `delete ID`: a life of the task begins, unless it is enabled; or its life ends.
/// - `write [--workers W] [--capacity C] [--precision P] DB RP`: it reads lines of the line protocol from the
///   input, at most 8,388,608 bytes, stores their points in this database and policy as one, runs the lives of
///   the tasks that are enabled on them, stores their transitions, and then writes the lines of what the lives
///   did. A time counts nanoseconds, or what P says: one of `ns`, `n`, `u`, `ms`, `s`, `m` and `h`. A line
///   without one has the time of now.
/// - `compact`: it writes the records of the store that are needed into the other one of its two logs, which
///   is current then. Left out are records that changed nothing, snapshots but the last, and the definition
///   and deletion of tasks that never had a life and are deleted.
///
/// Those six open the store as the lists do, once the whole input of `define` and of `write` is read and
/// checked; what the opening stores isn't written.
///
/// `now` is the time of now, in nanoseconds from 1970-01-01T00:00:00Z on. `rt` makes
/// the threads of workers, and each of them passes `gate` before each of its turns. `ran` is None; at Ok of a
/// replay, of a `gen` for tasks and of a `write` it is the net through which the points went.
pub fn command<
    S: Source,
    K: Sink,
    D: Disk,
    P: Patterns,
    G: Gate + Sync,
    R: Threads + Sync,
    N: ScriptNode + NumberingNode + Send,
>(
    rt: &R,
    alloc: Global,
    words: &[String],
    now: i64,
    input: &mut S,
    out: &mut K,
    disk: &mut D,
    pats: &mut P,
    gate: &G,
    ran: &mut Option<Net<N>>,
) -> Status
    requires now { IsTrue (is_time now) }
    requires none { ran.old ≡ None }
    // Usage exactly where the words aren't those of a command.
    ensures usage { ExactlyWhere result Status.Usage
        (request_in (map string_bytes words.now) ≡ None) }
    // But for a definition, TooManyTasks exactly where they ask for a replay, or a summary, for more than 64
    // tasks.
    ensures too_many { defines (request_in (map string_bytes words.now)) ≡ false
        → ExactlyWhere result Status.TooManyTasks (AsksForTooMany (map string_bytes words.now)) }
    // After these nothing was read or written.
    ensures nothing { defines (request_in (map string_bytes words.now)) ≡ false
        → (result ≡ Status.Usage) ⊎ (result ≡ Status.TooManyTasks)
        → Keeps (S.left input.old) (S.left input.new)
        × Keeps (K.written out.old) (K.written out.new) }
    // Of a check the canonical form of the script is written, as the status says.
    ensures checked { AsksToCheck (map string_bytes words.now)
        → Checked (P.refused pats.new) result (S.left input.old) (S.left input.new)
        (K.written out.old) (K.written out.new) }
    // Its status is that of the text that the input gives, unless memory ran out or a device failed.
    ensures check_status { (text : List ℕ) (status : Status)
        → AsksToCheck (map string_bytes words.now) → S.left input.old ≡ Some text
        → ChecksTo (refusal_of result (P.refused pats.new)) text status
        → IsUnlessFailed result status }
    // Of a replay the text of what the nodes give for the points is written, as the status says, however many
    // workers, or in whatever order, move the net, and whatever its capacity; or the first pair that is no
    // task is refused, before anything is read or written.
    ensures ran { (options : ReplayOptions) (pairs : List Pair)
        → AsksToReplay (map string_bytes words.now) options pairs
        → Ran N.answer N.planned (P.refused pats.new) options.counts pairs result
        (S.left input.old) (S.left input.new) (K.written out.old) (K.written out.new) }
    // Of tasks its status is Ok where the input is a recording, and else that of its first fault, unless
    // memory ran out, a device failed, or a pattern was refused.
    ensures status { (options : ReplayOptions) (pairs : List Pair) (tasks : List Task)
        (bytes : List ℕ)
        → AsksToReplay (map string_bytes words.now) options pairs → AreTasks [] pairs tasks
        → S.left input.old ≡ Some bytes → is_pattern_refused result ≡ false
        → IsUnlessFailed result (status_at (reading_of bytes).stop) }
    // Where some pair is no task its status says why the first of them is none, unless memory ran out or a
    // pattern was refused.
    ensures refused { (options : ReplayOptions) (pairs : List Pair) (status : Status)
        → AsksToReplay (map string_bytes words.now) options pairs → AreNoTasks None [] pairs status
        → is_pattern_refused result ≡ false → (result ≡ status) ⊎ (result ≡ Status.NoMemory) }
    // At Ok there is a net at rest, whose lives are those of the tasks, and each of its edges has carried
    // what its parent gives out for the points of the recording.
    ensures net { (options : ReplayOptions) (pairs : List Pair)
        → AsksToReplay (map string_bytes words.now) options pairs → result ≡ Status.Ok
        → HoldsNetOfTasks N.Node N.planned pairs (S.left input.old) ran.new }
    // Of `gen` alone the sample recording is written, as the status says.
    ensures generated { (n : ℕ) → AsksToGenerate (map string_bytes words.now) n
        → WritesText (sample_text n) result (K.written out.old) (K.written out.new) }
    // Of `gen` for tasks the summary of its replay is; or the first pair that is no task is refused, before
    // anything is written.
    ensures summed { (n : ℕ) (pairs : List Pair) → AsksToSummarize (map string_bytes words.now) n pairs
        → Summed N.answer N.planned (P.refused pats.new) n pairs result
        (K.written out.old) (K.written out.new) }
    // At Ok there is such a net for the points of the sample recording.
    ensures sample_net { (n : ℕ) (pairs : List Pair)
        → AsksToSummarize (map string_bytes words.now) n pairs → result ≡ Status.Ok
        → HoldsNetOfSamples N.Node N.planned pairs n ran.new }
    // In every other case there is none.
    ensures no_net { (result ≡ Status.Ok
        → runs_net (request_in (map string_bytes words.now)) ≡ false) → ran.new ≡ None }
    // Of `init` a store of no records was made, where no head stood there, and then each image stands for it.
    ensures made { AsksToInit (map string_bytes words.now)
        → Made (IsTrue D.tells) result (D.seen disk.old) (D.seen disk.new) (D.may_leave disk.new) }
    // It is Ok where no head stood there, and Exists where one did, unless memory ran out or the disk failed.
    ensures fresh { AsksToInit (map string_bytes words.now) → IsTrue D.tells
        → HasNoHead (D.seen disk.old Part.Head) → IsUnlessDiskFailed result Status.Ok }
    ensures exists { AsksToInit (map string_bytes words.now) → IsTrue D.tells
        → HasHead (D.seen disk.old Part.Head) → IsUnlessDiskFailed result Status.Exists }
    // Where one did, nothing changes on the disk.
    ensures kept { AsksToInit (map string_bytes words.now) → IsTrue D.tells
        → HasHead (D.seen disk.old Part.Head)
        → Quiet D.seen D.moment D.may_leave D.left_since disk.old disk.new }
    // Of a list of what a right store holds its lines are written, as the status says, once the store was
    // opened: its tasks, and its points; its topics and transitions, with those that the opening stored.
    ensures shown { (listing : Listing) (rs : List Rec) (good : IsGood N.Node N.planned rs)
        → AsksToShow (map string_bytes words.now) listing → IsTrue D.tells
        → Stands rs (D.seen disk.old)
        → Shows (list_text listing (held_whole N.Node N.planned rs good)) result
        (K.written out.old) (K.written out.new) }
    // Of `alerts` of one whose `export` a replay may take they are those of this replay, for the pairs of its
    // open lives, without the lines of logged points, where nodes say the same in each life.
    ensures exported { (rs : List Rec) (good : IsGood N.Node N.planned rs)
        → AsksToShow (map string_bytes words.now) Listing.Alerts → IsTrue D.tells
        → Stands rs (D.seen disk.old) → SayInEachLife N.answer N.planned
        → IsExportable (held rs) → TellsAsReplay N.answer N.planned (held rs) good.tasks result
        (K.written out.old) (K.written out.new) }
    // It tells no place there, unless a pattern was refused.
    ensures unrefused { (listing : Listing) (rs : List Rec) (part : Part) (offset : ℕ)
        → AsksToShow (map string_bytes words.now) listing → IsTrue D.tells
        → Stands rs (D.seen disk.old) → IsGood N.Node N.planned rs
        → result ≡ Status.NotStore part offset
        → HasRisen (P.refusals pats.old) (P.refusals pats.new) }
    // At Ok the files stood for a store whose scripts are those of tasks, and whose last snapshot is one of
    // their nodes; where a place is told, they are no such store there, or one that isn't right.
    ensures opened { (listing : Listing) → AsksToShow (map string_bytes words.now) listing
        → IsTrue D.tells → Opens N.Node N.planned (P.refusals pats.old) (P.refusals pats.new)
        (P.refused pats.new) (D.seen disk.old) result }
    // But for the last case nothing was written then, and nothing changed on the disk.
    ensures left { (listing : Listing) (part : Part) (offset : ℕ)
        → AsksToShow (map string_bytes words.now) listing → IsTrue D.tells
        → result ≡ Status.NotStore part offset → (Keeps (K.written out.old) (K.written out.new)
        × Quiet D.seen D.moment D.may_leave D.left_since disk.old disk.new)
        ⊎ AreOthers N.Node N.planned (D.seen disk.old) }
    // Where the files stand for no store, the place is told, unless memory ran out or the disk failed.
    ensures no_store { (listing : Listing) (part : Part) (offset : ℕ)
        → AsksToShow (map string_bytes words.now) listing → IsTrue D.tells
        → IsNoStore (D.seen disk.old) part offset
        → IsUnlessDiskFailed result (Status.NotStore part offset) }
    // At each moment each image that a crash may leave is as it was, or stands for the store with a few of
    // the transitions that are due more; at Ok each has all.
    ensures images { (listing : Listing) (rs : List Rec)
        → AsksToShow (map string_bytes words.now) listing → IsTrue D.tells
        → Stands rs (D.seen disk.old) → IsGood N.Node N.planned rs
        → Moments D.moment D.may_leave D.left_since disk.old disk.new
        (stays_or_good N.Node N.planned rs) }
    ensures full { (listing : Listing) (rs : List Rec)
        → AsksToShow (map string_bytes words.now) listing → IsTrue D.tells
        → Stands rs (D.seen disk.old) → IsGood N.Node N.planned rs → result ≡ Status.Ok
        → LeavesFull N.Node N.planned rs (D.seen disk.new) (D.may_leave disk.new) }
    // Where the store had all transitions, nothing changes on the disk.
    ensures again { (listing : Listing) (rs : List Rec)
        → AsksToShow (map string_bytes words.now) listing → IsTrue D.tells
        → Stands rs (D.seen disk.old) → IsFull N.Node N.planned rs
        → Quiet D.seen D.moment D.may_leave D.left_since disk.old disk.new }
    // Of a definition: what of the input was read, as the status says.
    ensures script { (id : List ℕ) → AsksToDefine (map string_bytes words.now) id
        → ReadsScript (P.refused pats.new) (S.left input.old) (S.left input.new) result }
    // Behind it, in a right store, a task of this id is defined by the script, disabled, where none had the
    // id and fewer than 64 were there; else the status says which of both. At each moment each image that a
    // crash may leave is as it was, or stands for the right store with a few of the transitions that are due
    // more, or with all and the task; at Ok each has it.
    ensures defined { (id : List ℕ) (rs : List Rec)
        → AsksToDefine (map string_bytes words.now) id → IsTrue D.tells
        → Stands rs (D.seen disk.old) → IsGood N.Node N.planned rs
        → (EndsReading result × (disk.new ≡ disk.old))
        ⊎ Defines N.Node N.planned D.seen D.moment D.may_leave D.left_since rs id
        (S.left input.old) (P.refusals pats.old) (P.refusals pats.new) disk.old disk.new result }
    // There its status is that of the text that the input gives, of the id and of how many tasks there are,
    // unless memory ran out, a device failed, or a pattern of the store's scripts was refused.
    ensures define_status { (id text : List ℕ) (rs : List Rec) (status : Status)
        → AsksToDefine (map string_bytes words.now) id → IsTrue D.tells
        → Stands rs (D.seen disk.old) → IsGood N.Node N.planned rs → S.left input.old ≡ Some text
        → DefinesTo (refusal_of result (P.refused pats.new)) rs id text status
        → IsUnlessStopped (P.refusals pats.old) (P.refusals pats.new) result status }
    // Of a change of a task of a right store: at Ok a task had the id and is enabled, disabled or gone; at
    // NoTask none had it. At each moment it is so with each image.
    ensures changed { (change : Change) (id : List ℕ) (rs : List Rec)
        → AsksToChange (map string_bytes words.now) change id → IsTrue D.tells
        → Stands rs (D.seen disk.old) → IsGood N.Node N.planned rs
        → Changes N.Node N.planned D.seen D.moment D.may_leave D.left_since rs id
        (record_of change id) (P.refusals pats.old) (P.refusals pats.new)
        disk.old disk.new result }
    // Its status is Ok where a task of it has the id, and else NoTask, unless memory ran out, the disk failed,
    // or a pattern of the store's scripts was refused.
    ensures change_status { (change : Change) (id : List ℕ) (rs : List Rec)
        → AsksToChange (map string_bytes words.now) change id → IsTrue D.tells
        → Stands rs (D.seen disk.old) → IsGood N.Node N.planned rs
        → IsUnlessDiskFailed result (change_status (has_task id (held rs).tasks))
        ⊎ IsToldRefused (P.refusals pats.old) (P.refusals pats.new) result }
    // Of a write: what of the input was read, as the status says.
    ensures lines { (options : WriteOptions) (db rp : List ℕ)
        → AsksToWrite (map string_bytes words.now) options db rp
        → ReadsLines db rp (Mode.Live (unit_of options) now)
        (S.left input.old) (S.left input.new) result }
    // In a right store the points of its lines are written, with all transitions that they make, and the text
    // of what the lives did is written behind that, as the status says, however many workers move the net and
    // whatever its capacity; at Ok there is the net. At each moment each image is as it was, or stands for a
    // right store with all of the points or none.
    ensures written { (options : WriteOptions) (db rp : List ℕ) (rs : List Rec)
        (good : IsGood N.Node N.planned rs)
        → AsksToWrite (map string_bytes words.now) options db rp → IsTrue D.tells
        → Stands rs (D.seen disk.old)
        → (EndsReading result × (disk.new ≡ disk.old) × (out.new ≡ out.old))
        ⊎ Writes N.Node N.planned D.seen D.moment D.may_leave D.left_since db rp
        (Mode.Live (unit_of options) now) rs good (S.left input.old)
        (K.written out.old) (K.written out.new) (P.refusals pats.old) (P.refusals pats.new)
        disk.old disk.new ran.new result }
    // There its status is that of the lines that the input gives, unless memory ran out, a device failed, or a
    // pattern of the store's scripts was refused.
    ensures write_status { (options : WriteOptions) (db rp body : List ℕ) (rs : List Rec)
        (status : Status) → AsksToWrite (map string_bytes words.now) options db rp → IsTrue D.tells
        → Stands rs (D.seen disk.old) → IsGood N.Node N.planned rs → S.left input.old ≡ Some body
        → WritesTo db rp (Mode.Live (unit_of options) now) body status
        → IsUnlessStopped (P.refusals pats.old) (P.refusals pats.new) result status }
    // Unless it is Ok, or a write to the output failed, nothing was written there, whatever the store.
    ensures write_kept { (options : WriteOptions) (db rp : List ℕ)
        → AsksToWrite (map string_bytes words.now) options db rp
        → result ≢ Status.Ok → result ≢ Status.WriteFault → out.new ≡ out.old }
    // Of a compaction of a right store: at Ok just the records that stay are there, of it with all
    // transitions that are due. At each moment each image is as it was, or stands for the right store with a
    // few of these more, or with all and just these records.
    ensures compacted { (rs : List Rec) → AsksToCompact (map string_bytes words.now)
        → IsTrue D.tells → Stands rs (D.seen disk.old) → IsGood N.Node N.planned rs
        → Compacts N.Node N.planned D.seen D.moment D.may_leave D.left_since rs
        (P.refusals pats.old) (P.refusals pats.new) disk.old disk.new result }
    // Its status is Ok, unless memory ran out, the disk failed, or a pattern of the store's scripts was
    // refused.
    ensures compact_status { (rs : List Rec) → AsksToCompact (map string_bytes words.now)
        → IsTrue D.tells → Stands rs (D.seen disk.old) → IsGood N.Node N.planned rs
        → IsUnlessDiskFailed result Status.Ok
        ⊎ IsToldRefused (P.refusals pats.old) (P.refusals pats.new) result }
    // A refused script, recording or line changes nothing on the disk.
    ensures unopened { reads_input (request_in (map string_bytes words.now)) ≡ true
        → is_early result ≡ true → disk.new ≡ disk.old }
    // Of a change of a task: at Ok and NoTask the files stood for a store whose scripts are those of tasks,
    // and whose last snapshot is one of their nodes; where a place is told, they are no such store there, and
    // then nothing changed, or they are one, and if it is right the script of the task was refused.
    ensures change_opened { (change : Change) (id : List ℕ)
        → AsksToChange (map string_bytes words.now) change id → IsTrue D.tells
        → OpensToChange N.Node N.planned (P.refusals pats.old) (P.refusals pats.new)
        (P.refused pats.new) (Quiet D.seen D.moment D.may_leave D.left_since disk.old disk.new)
        (D.seen disk.old) (D.seen disk.new) id result }
    // The same of a definition, and of a write, behind what they read.
    ensures define_opened { (id : List ℕ)
        → AsksToDefine (map string_bytes words.now) id → IsTrue D.tells
        → OpensBehind N.Node N.planned (P.refusals pats.old) (P.refusals pats.new)
        (P.refused pats.new) (Quiet D.seen D.moment D.may_leave D.left_since disk.old disk.new)
        (D.seen disk.old) result }
    ensures write_opened { (options : WriteOptions) (db rp : List ℕ)
        → AsksToWrite (map string_bytes words.now) options db rp → IsTrue D.tells
        → OpensBehind N.Node N.planned (P.refusals pats.old) (P.refusals pats.new)
        (P.refused pats.new) (Quiet D.seen D.moment D.may_leave D.left_since disk.old disk.new)
        (D.seen disk.old) result }
    // Of a compaction: at Ok the files stood for such a store; where a place is told, they are none there, and
    // then nothing changed, or one that isn't right.
    ensures compact_opened { AsksToCompact (map string_bytes words.now) → IsTrue D.tells
        → OpensToCompact N.Node N.planned (P.refusals pats.old) (P.refusals pats.new)
        (P.refused pats.new) (Quiet D.seen D.moment D.may_leave D.left_since disk.old disk.new)
        (D.seen disk.old) result }
    // Where the files stand for no store, the place is told, unless what was read was refused first, memory
    // ran out or the disk failed.
    ensures nowhere { (part : Part) (offset : ℕ)
        → changes_store (request_in (map string_bytes words.now)) ≡ true → IsTrue D.tells
        → IsNoStore (D.seen disk.old) part offset
        → ((reads_input (request_in (map string_bytes words.now)) ≡ true) × EndsReading result)
        ⊎ IsUnlessDiskFailed result (Status.NotStore part offset) }
    // Commands that don't use the input, the output or the disk leave it alone.
    ensures unread { reads_input (request_in (map string_bytes words.now)) ≡ false
        → input.new ≡ input.old }
    ensures unwritten { writes_output (request_in (map string_bytes words.now)) ≡ false
        → out.new ≡ out.old }
    ensures untouched { uses_disk (request_in (map string_bytes words.now)) ≡ false
        → disk.new ≡ disk.old }
    // At Ok the input was read to its end, where the command reads it.
    ensures read { reads_input (request_in (map string_bytes words.now)) ≡ true
        → result ≡ Status.Ok → HasEnded (S.left input.old) (S.left input.new) }
    // A fault of the input, the output or the disk comes only where its count rose in this call, and so does
    // a refused pattern.
    ensures read_fault { result ≡ Status.ReadFault
        → HasRisen (S.faults input.old) (S.faults input.new) }
    ensures write_fault { result ≡ Status.WriteFault
        → HasRisen (K.faults out.old) (K.faults out.new) }
    ensures disk_fault { result ≡ Status.DiskFault
        → HasRisen (D.faults disk.old) (D.faults disk.new) }
    ensures pattern { is_pattern_refused result ≡ true
        → HasRisen (P.refusals pats.old) (P.refusals pats.new) }
{
    match request_in(words) {
        None => Status::Usage,
        Some(Request::Check) => check(alloc, input, out, pats),
        Some(Request::Replay { options, words }) => {
            if are_too_many(words) {
                return Status::TooManyTasks;
            }
            replay_pairs(rt, alloc, options, words, input, out, pats, gate, ran)
        }
        Some(Request::Generate { count }) => write_recording(alloc, u64::from(count), out),
        Some(Request::Summarize { count, words }) => {
            if are_too_many(words) {
                return Status::TooManyTasks;
            }
            write_summary(rt, alloc, u64::from(count), words, out, pats, gate, ran)
        }
        Some(Request::Init) => init(alloc, disk),
        Some(Request::Show(listing)) => list::<K, D, P, N, G, R>(
            rt, alloc, listing, out, disk, pats, gate,
        ),
        Some(Request::Define { id }) => define::<S, D, P, N, G, R>(
            rt, alloc, id, input, disk, pats, gate,
        ),
        Some(Request::Change { change: what, id }) => change::<D, P, N, G, R>(
            rt, alloc, what, id, disk, pats, gate,
        ),
        Some(Request::Write { options, db, rp }) => write(
            rt, alloc, options, db, rp, now, input, out, disk, pats, gate, ran,
        ),
        Some(Request::Compact) => compact::<D, P, N, G, R>(rt, alloc, disk, pats, gate),
    }
}
