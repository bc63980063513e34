//! Lives end and begin between two points.

ghost use Rattle.std.specs.Prelude.{◌≡◌, ◌+◌, ◌<◌, ◌≤◌, ◌∷◌, ◌++◌, [], false, ℕ, IfErr, IsTrue, IsFalse, List, OnOk, Some, drop, length, slice_get};
ghost use Rattle.std.specs.List.{AllByRecursion as Each};
ghost use Rattle.kap_base.specs.Points.{PointValue};
ghost use Rattle.kap_base.specs.declared.limits.TheConstants.{SCRIPT_LIMIT};
ghost use Rattle.lambda_types.specs.Builds.{AtMostOneMore};
ghost use Rattle.edge_queue.specs.declared.TheConstants.{CAPACITY_LIMIT};
ghost use Rattle.effect_text.specs.declared.names.TaskNames.{TaskNames};
ghost use Rattle.flow_core.specs.Nets.{IsResting, numbers_of};
ghost use Rattle.net_epochs.specs.Epochs.{StandsAt};
ghost use Rattle.store_records.specs.Orders.{AreValidLives};
ghost use Rattle.store_records.specs.declared.task.Life.{Life};
ghost use Rattle.task_run.specs.Courses.{Course, begun};
ghost use Rattle.tick_compile.specs.declared.tasks.Task.{Task};
ghost use Rattle.engine_runs.specs.Faults.{IsWhy, IsWhyOne};
ghost use Rattle.engine_runs.specs.Running.{AreRested, LivesRun};
ghost use Rattle.engine_runs.specs.Scripts.{AreTasksOf, IsTaskOf, life_names, life_nodes};
ghost use Rattle.engine_runs.specs.Spans.{FirstsRise, IsAway};

use crate::fault::RunFault;
use crate::planning::{next_number, plan_life};
use crate::spans::{ended_among, has_ended_by};
use edge_queue::CAPACITY_LIMIT;
use effect_text::TaskNames;
use flow_core::Net;
use kap_base::{Names, NoMemory, Text};
use lambda_types::Patterns;
use node_core::Node;
use node_set::ScriptNode;
use std::alloc::Global;
use store_records::Life;
use tick_compile::scripts_have_one_answer;

/// Ends those lives in a net that have ended behind so many points.
pub(crate) fn end_lives<N: ScriptNode>(net: &mut Net<N>, lives: &[Life], points: u64)
    requires unspent { net.old.spent ≡ false }
    requires rest { Each IsResting net.old.lives }
    requires none { net.old.gathered ≡ [] }
    ensures unspent { net.new.spent ≡ false }
    ensures rest { Each IsResting net.new.lives }
    ensures none { net.new.gathered ≡ [] }
    ensures last { net.new.last ≡ net.old.last }
    ensures runs { (tasks : List Task) (before : List PointValue) (names : List TaskNames)
        → points ≡ length before
        → LivesRun N.Node N.planned lives.now tasks before 0 names net.old
        → LivesRun N.Node N.planned lives.now tasks before 1 names net.new }
{
    'ending: while let Some(number) = ended_among(net.lives(), lives, points) {
        net.end(number);
    }
}

/// Whether a life begins behind so many points, or has begun before.
fn has_begun(life: &Life, points: u64) -> bool
    ensures yes { IsTrue result → life.now.first ≤ points + 1 }
    ensures no { IsFalse result → points + 1 < life.now.first }
{
    life.first.saturating_sub(1) <= points
}

/// The next life begins in a net: it comes last, with the next number.
fn begin_life<P: Patterns, N: ScriptNode>(
    alloc: Global,
    life: &Life,
    capacity: u32,
    net: &mut Net<N>,
    names: &mut Vec<TaskNames>,
    pats: &mut P,
) -> Result<(), RunFault>
    requires short { length life.now.script ≤ SCRIPT_LIMIT }
    requires unspent { net.old.spent ≡ false }
    requires rest { Each IsResting net.old.lives }
    requires some { 0 < capacity }
    requires limit { capacity ≤ CAPACITY_LIMIT }
    ensures unspent { net.new.spent ≡ false }
    ensures rest { Each IsResting net.new.lives }
    ensures gathered { net.new.gathered ≡ net.old.gathered }
    ensures last { net.new.last ≡ net.old.last }
    ensures numbers { OnOk result (numbers_of net.new.lives
        ≡ numbers_of net.old.lives ++ (length names.old.items + 1) ∷ []) }
    ensures stands { OnOk result ((k : ℕ) (courses : List (Course N.Spec)) (task : Task)
        → IsTaskOf life.now task → StandsAt N.Node k courses net.old
        → Each (λ number. number ≤ length names.old.items) (numbers_of net.old.lives)
        → StandsAt N.Node k (courses
        ++ begun k (life_nodes N.planned (length names.old.items + 1) life.now task) ∷ []) net.new) }
    ensures names { OnOk result ((task : Task) → IsTaskOf life.now task
        → names.new.items ≡ names.old.items ++ life_names life.now task ∷ []) }
    ensures long { OnOk result (length names.new.items ≡ length names.old.items + 1) }
    ensures rested { OnOk result (AreRested N.Node net.old → AreRested N.Node net.new) }
    ensures why { IfErr result
        (IsWhy (P.refusals pats.old) (P.refusals pats.new) (P.refused pats.new) life.now) }
    ensures kept { OnOk result (P.refusals pats.new ≡ P.refusals pats.old) }
    ensures counted { AtMostOneMore (P.refusals pats.old) (P.refusals pats.new) }
{
    scripts_have_one_answer();
    let Some(number) = next_number(names.len()) else {
        return Err(RunFault::NoMemory);
    };
    let (named, plan) = match plan_life(alloc, number, life, pats) {
        Ok(made) => made,
        Err(fault) => return Err(fault),
    };
    net.begin(alloc, plan, capacity)?;
    names.push(named)?;
    Ok(())
}

/// Puts no names down for the next life, which isn't to run.
pub(crate) fn pass_life(alloc: Global, names: &mut Vec<TaskNames>) -> Result<(), NoMemory>
    ensures { OnOk result ((name : TaskNames) × (names.new.items ≡ names.old.items ++ name ∷ [])) }
{
    let id = Text::from_str(alloc, "")?;
    names.push(TaskNames {
        id,
        nodes: Names::new(alloc),
    })?;
    Ok(())
}

/// The next life begins in a net, where it hasn't ended; else it is passed.
fn begin_next<P: Patterns, N: ScriptNode>(
    alloc: Global,
    life: &Life,
    points: u64,
    capacity: u32,
    net: &mut Net<N>,
    names: &mut Vec<TaskNames>,
    pats: &mut P,
) -> Result<(), RunFault>
    requires short { length life.now.script ≤ SCRIPT_LIMIT }
    requires unspent { net.old.spent ≡ false }
    requires rest { Each IsResting net.old.lives }
    requires some { 0 < capacity }
    requires limit { capacity ≤ CAPACITY_LIMIT }
    ensures unspent { net.new.spent ≡ false }
    ensures rest { Each IsResting net.new.lives }
    ensures gathered { net.new.gathered ≡ net.old.gathered }
    ensures last { net.new.last ≡ net.old.last }
    ensures long { OnOk result (length names.new.items ≡ length names.old.items + 1) }
    ensures runs { OnOk result ((lives : List Life) (tasks : List Task)
        (before : List PointValue) → points ≡ length before → AreTasksOf lives tasks
        → slice_get lives (length names.old.items) ≡ Some life.now
        → IsAway points 0 life.now → life.now.first ≤ points + 1
        → LivesRun N.Node N.planned lives tasks before 1 names.old.items net.old
        → LivesRun N.Node N.planned lives tasks before 1 names.new.items net.new) }
    ensures why { IfErr result
        (IsWhy (P.refusals pats.old) (P.refusals pats.new) (P.refused pats.new) life.now) }
    ensures kept { OnOk result (P.refusals pats.new ≡ P.refusals pats.old) }
    ensures counted { AtMostOneMore (P.refusals pats.old) (P.refusals pats.new) }
{
    scripts_have_one_answer();
    if has_ended_by(life.last, points) {
        pass_life(alloc, names)?;
        return Ok(());
    }
    match begin_life(alloc, life, capacity, net, names, pats) {
        Ok(()) => Ok(()),
        Err(fault) => Err(fault),
    }
}

/// Those lives begin in a net that begin behind so many points.
pub(crate) fn begin_lives<P: Patterns, N: ScriptNode>(
    alloc: Global,
    lives: &[Life],
    points: u64,
    capacity: u32,
    net: &mut Net<N>,
    names: &mut Vec<TaskNames>,
    pats: &mut P,
) -> Result<(), RunFault>
    requires valid { AreValidLives lives.now }
    requires unspent { net.old.spent ≡ false }
    requires rest { Each IsResting net.old.lives }
    requires some { 0 < capacity }
    requires limit { capacity ≤ CAPACITY_LIMIT }
    ensures unspent { net.new.spent ≡ false }
    ensures rest { Each IsResting net.new.lives }
    ensures gathered { net.new.gathered ≡ net.old.gathered }
    ensures last { net.new.last ≡ net.old.last }
    ensures runs { OnOk result ((tasks : List Task) (before : List PointValue)
        → points ≡ length before → AreTasksOf lives.now tasks
        → Each (IsAway points 0) (drop (length names.old.items) lives.now)
        → LivesRun N.Node N.planned lives.now tasks before 1 names.old.items net.old
        → LivesRun N.Node N.planned lives.now tasks before 1 names.new.items net.new) }
    ensures away { OnOk result (FirstsRise lives.now
        → Each (IsAway points 1) (drop (length names.new.items) lives.now)) }
    ensures all { OnOk result (Each (λ life. life.first ≤ points + 1) lives.now
        → length lives.now ≤ length names.new.items) }
    ensures why { IfErr result (IsWhyOne (P.refusals pats.old) (P.refusals pats.new)
        (P.refused pats.new) lives.now) }
    ensures kept { OnOk result (P.refusals pats.new ≡ P.refusals pats.old) }
    ensures counted { AtMostOneMore (P.refusals pats.old) (P.refusals pats.new) }
{
    'beginning: while let Some(life) = lives.get(names.len()) {
        if !has_begun(life, points) {
            return Ok(());
        }
        if let Err(fault) = begin_next(alloc, life, points, capacity, net, names, pats) {
            return Err(fault);
        }
    }
    Ok(())
}
