//! Lives are planned again, those that were open at a snapshot.

ghost use Rattle.std.specs.Prelude.{◌≡◌, ◌+◌, ◌<◌, ◌≤◌, ◌∷◌, [], ℕ, Bool, Err, IfErr, IfOk, IsFalse, IsTrue, List, OnOk, Some, drop, length, slice_get};
ghost use Rattle.std.specs.List.{AllByRecursion as Each};
ghost use Rattle.kap_base.specs.declared.limits.TheConstants.{SCRIPT_LIMIT};
ghost use Rattle.lambda_types.specs.Builds.{AtMostOneMore};
ghost use Rattle.barrier_snapshot.specs.Captures.{IsCapture, in_lives};
ghost use Rattle.barrier_snapshot.specs.Restoring.{Restores};
ghost use Rattle.edge_queue.specs.declared.TheConstants.{CAPACITY_LIMIT};
ghost use Rattle.flow_core.specs.Making.{HasFewParents};
ghost use Rattle.store_records.specs.Orders.{AreValidLives};
ghost use Rattle.store_records.specs.declared.task.Life.{Life};
ghost use Rattle.task_run.specs.Plans.{IsPlan};
ghost use Rattle.engine_runs.specs.Faults.{IsWhy, IsWhyOne};
ghost use Rattle.engine_runs.specs.Restoring.{HasPlanned};
ghost use Rattle.engine_runs.specs.Scripts.{PutsPlan};
ghost use Rattle.engine_runs.specs.Spans.{numbers_from, picked};

use crate::fault::RunFault;
use crate::planning::plan_life;
use crate::turning::pass_life;
use barrier_snapshot::{SnapFault, restore};
use edge_queue::CAPACITY_LIMIT;
use effect_text::TaskNames;
use flow_core::Net;
use kap_base::Stamp;
use lambda_types::Patterns;
use node_core::Node;
use node_set::ScriptNode;
use std::alloc::Global;
use store_records::Life;
use task_run::LifePlan;
use tick_compile::scripts_have_one_answer;

/// Whether the life behind so many others has this number.
fn is_next(begun: usize, number: u32) -> bool
    ensures yes { IsTrue result → number ≡ begun + 1 }
    ensures no { IsFalse result → number ≡ begun + 1 → ⊥ }
{
    if number == 0 {
        return false;
    }
    begun == number as usize - 1
}

/// The life with this number is planned, and put behind others.
fn put_plan<P: Patterns, N: ScriptNode>(
    alloc: Global,
    number: u32,
    life: &Life,
    names: &mut Vec<TaskNames>,
    plans: &mut Vec<LifePlan<N>>,
    pats: &mut P,
) -> Result<(), RunFault>
    requires { length life.now.script ≤ SCRIPT_LIMIT }
    ensures ok { OnOk result (PutsPlan N.planned N.spec N.state N.first number life.now
        names.old.items names.new.items plans.old.items plans.new.items) }
    ensures plans { OnOk result (Each (IsPlan N.spec N.ports N.life N.number) plans.old.items
        → Each (IsPlan N.spec N.ports N.life N.number) plans.new.items) }
    ensures why { IfErr result
        (IsWhy (P.refusals pats.old) (P.refusals pats.new) (P.refused pats.new) life.now) }
    ensures kept { OnOk result (P.refusals pats.new ≡ P.refusals pats.old) }
    ensures counted { AtMostOneMore (P.refusals pats.old) (P.refusals pats.new) }
{
    let (named, plan) = match plan_life(alloc, number, life, pats) {
        Ok(made) => made,
        Err(fault) => return Err(fault),
    };
    names.push(named)?;
    plans.push(plan)?;
    Ok(())
}

/// The next life is planned where it has this number, and else passed. It answers how many were planned.
fn plan_next<P: Patterns, N: ScriptNode>(
    alloc: Global,
    number: u32,
    life: &Life,
    names: &mut Vec<TaskNames>,
    plans: &mut Vec<LifePlan<N>>,
    pats: &mut P,
) -> Result<usize, RunFault>
    requires { length life.now.script ≤ SCRIPT_LIMIT }
    ensures long { OnOk result (length names.new.items ≡ length names.old.items + 1) }
    ensures most { IfOk result (λ count. count ≤ 1) }
    ensures planned { IfOk result (λ count. (lives : List Life) (runs : List Bool)
        (others : List ℕ) → slice_get lives (length names.old.items) ≡ Some life.now
        → HasPlanned N.spec N.planned lives runs (number ∷ others) names.old.items plans.old.items
        → HasPlanned N.spec N.planned lives runs (drop count (number ∷ others))
        names.new.items plans.new.items) }
    ensures few { OnOk result (Each HasFewParents plans.old.items
        → Each HasFewParents plans.new.items) }
    ensures plans { OnOk result (Each (IsPlan N.spec N.ports N.life N.number) plans.old.items
        → Each (IsPlan N.spec N.ports N.life N.number) plans.new.items) }
    ensures why { IfErr result
        (IsWhy (P.refusals pats.old) (P.refusals pats.new) (P.refused pats.new) life.now) }
    ensures kept { OnOk result (P.refusals pats.new ≡ P.refusals pats.old) }
    ensures counted { AtMostOneMore (P.refusals pats.old) (P.refusals pats.new) }
{
    scripts_have_one_answer();
    if is_next(names.len(), number) {
        return match put_plan(alloc, number, life, names, plans, pats) {
            Ok(()) => Ok(1),
            Err(fault) => Err(fault),
        };
    }
    pass_life(alloc, names)?;
    Ok(0)
}

/// The lives with these numbers, which rise, are planned, and those before them are passed.
pub(crate) fn plan_open<P: Patterns, N: ScriptNode>(
    alloc: Global,
    lives: &[Life],
    numbers: &[u32],
    names: &mut Vec<TaskNames>,
    plans: &mut Vec<LifePlan<N>>,
    pats: &mut P,
) -> Result<(), RunFault>
    requires { AreValidLives lives.now }
    ensures planned { OnOk result ((runs : List Bool)
        → numbers.now ≡ picked runs (numbers_from 1 lives.now)
        → HasPlanned N.spec N.planned lives.now runs numbers.now names.old.items plans.old.items
        → HasPlanned N.spec N.planned lives.now runs [] names.new.items plans.new.items) }
    ensures few { OnOk result (Each HasFewParents plans.old.items
        → Each HasFewParents plans.new.items) }
    ensures plans { OnOk result (Each (IsPlan N.spec N.ports N.life N.number) plans.old.items
        → Each (IsPlan N.spec N.ports N.life N.number) plans.new.items) }
    ensures why { IfErr result (IsWhyOne (P.refusals pats.old) (P.refusals pats.new)
        (P.refused pats.new) lives.now) }
    ensures kept { OnOk result (P.refusals pats.new ≡ P.refusals pats.old) }
    ensures counted { AtMostOneMore (P.refusals pats.old) (P.refusals pats.new) }
{
    let mut rest = numbers;
    'planning: while let Some((number, _)) = rest.split_first() {
        let Some(life) = lives.get(names.len()) else {
            return Ok(());
        };
        let count = match plan_next(alloc, *number, life, names, plans, pats) {
            Ok(count) => count,
            Err(fault) => return Err(fault),
        };
        rest = rest.split_at(count).1;
    }
    Ok(())
}

/// A net of planned lives, at rest in the states that a snapshot holds, behind this barrier.
pub(crate) fn restore_net<N: Node>(
    alloc: Global,
    plans: Vec<LifePlan<N>>,
    capacity: u32,
    states: &[u8],
    there: Stamp,
) -> Result<Net<N>, RunFault>
    requires few { Each HasFewParents plans.items }
    requires some { 0 < capacity }
    requires limit { capacity ≤ CAPACITY_LIMIT }
    ensures restores { IfOk result (Restores N.Node plans.items there states.now) }
    ensures states { (held : List N.State) → result ≡ Err RunFault.States
        → IsCapture N.fits N.spell (in_lives N.spec plans.items) held states.now → ⊥ }
    ensures script { (at : ℕ) → result ≡ Err (RunFault.Script at) → ⊥ }
{
    match restore(alloc, plans, capacity, states, there) {
        Ok(net) => Ok(net),
        Err(SnapFault::At(_)) => Err(RunFault::States),
        Err(SnapFault::NoMemory) => Err(RunFault::NoMemory),
    }
}
