ghost use Rattle.std.specs.Prelude.{◌≡◌, IfOk, OnOk};
ghost use Rattle.state_nodes.specs.StateCounts.{counts_in, number_behind, numbered_behind, run_behind, state_count_goes_on, state_count_says, state_count_step, truth_at, truth_of};

use crate::words::{result_name, with_number};
use kap_base::{NoMemory, Point, Shared, Value};
use lambda_eval::{next_count, outcome};
use lambda_types::Lambda;
use node_core::{Rule, Said, pass_new};
use std::alloc::Global;
use task_graph::{Name, StateCountSpec};

/// What `stateCount` does (Kapacitor 1.6: state count node): at how many points of the group in a row, up to
/// this one, the condition is true becomes a field of the point, -1 where it is false. A point at which the
/// condition has a fault is dropped and counted, and breaks no row.
#[derive(Drop)]
pub struct StateCount {
    /// The condition, and the name of the field.
    pub spec: StateCountSpec<Lambda>,
}

/// How often the condition was evaluated in a group, and at how many points in a row it was true.
pub type Counts = (u64, u64);

/// What a condition is, by its value: nothing where there is none, and false where it is no truth value.
fn truth_of(value: Option<Value>) -> Option<bool>
    ensures { result ≡ truth_of value }
{
    match value {
        Some(Value::Bool(holds)) => Some(holds),
        Some(Value::Int(_)) => Some(false),
        Some(Value::Str(_)) => Some(false),
        None => None,
    }
}

/// What a condition is at a point, where it was evaluated `k` times before in the point's group.
fn truth_at(
    alloc: Global,
    condition: &mut Lambda,
    k: u64,
    point: &Point,
) -> Result<Option<bool>, NoMemory>
    ensures truth { IfOk result (λ truth. truth ≡ truth_at condition.old k point.now) }
    ensures kept { condition.new ≡ condition.old }
{
    let value = outcome(alloc, condition, k, point)?;
    Ok(truth_of(value))
}

/// At how many points in a row the condition was true, behind one more.
fn run_behind(run: u64, truth: Option<bool>) -> Result<u64, NoMemory>
    ensures { IfOk result (λ next. next ≡ run_behind run truth) }
{
    match truth {
        Some(true) => next_count(run),
        Some(false) => Ok(0),
        None => Ok(run),
    }
}

/// The number at a point behind such a run.
fn number_behind(run: u64, holds: bool) -> Result<i64, NoMemory>
    ensures { IfOk result (λ number. number ≡ number_behind run holds) }
{
    if !holds {
        return Ok(-1);
    }
    match i64::try_from(next_count(run)?) {
        Ok(number) => Ok(number),
        Err(_) => Err(NoMemory),
    }
}

/// What is said of a point behind such a run.
fn say_number(
    alloc: Global,
    name: &Option<Name>,
    run: u64,
    truth: Option<bool>,
    point: Point,
) -> Result<Said, NoMemory>
    ensures { IfOk result (λ said. said ≡ numbered_behind name.now run truth point) }
{
    let Some(holds) = truth else {
        return Ok(Said::dropped(alloc));
    };
    let name = result_name(alloc, "state_count", name)?;
    let number = number_behind(run, holds)?;
    pass_new(alloc, with_number(point, name, number)?)
}

/// What `stateCount` says of a point.
fn feed_state_count(
    alloc: Global,
    spec: &mut StateCountSpec<Lambda>,
    counts: &mut Counts,
    port: u32,
    point: Point,
) -> Result<Said, NoMemory>
    ensures kept { spec.new ≡ spec.old }
    ensures counts { OnOk result
        (counts.new ≡ (state_count_step spec.old counts.old port point).state) }
    ensures said { IfOk result (λ said. said
        ≡ (state_count_step spec.old counts.old port point).said) }
{
    let _ = port;
    let (evaluations, run) = *counts;
    let truth = truth_at(alloc, &mut spec.condition, evaluations, &point)?;
    *counts = (next_count(evaluations)?, run_behind(run, truth)?);
    say_number(alloc, &spec.name, run, truth, point)
}

impl Rule for StateCount {
    type Cell = Counts;

    ghost ports = { λ r. 1 };

    ghost answer = { λ r. state_count_says r.spec };

    ghost kept = { λ r. counts_in r.spec };

    ghost step = { λ r. state_count_step r.spec };

    ghost goes_on = { λ r. state_count_goes_on r.spec };

    fn first(&self, alloc: Global) -> Counts {
        let _ = alloc;
        (0, 0)
    }

    fn feed(
        &mut self,
        alloc: Global,
        cell: &mut Counts,
        port: u32,
        point: Shared<Point>,
    ) -> Result<Said, NoMemory> {
        let point = point.into_value(alloc)?;
        feed_state_count(alloc, &mut self.spec, cell, port, point)
    }
}
