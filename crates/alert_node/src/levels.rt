//! The level of a point.

ghost use Rattle.std.specs.Prelude.{◌≡◌, IfOk};
ghost use Rattle.lambda_eval.specs.Outcomes.{is_true};
ghost use Rattle.alert_node.specs.Asking.{asked, level_asked};
ghost use Rattle.alert_node.specs.Levels.{asks_at, decides};
ghost use Rattle.alert_node.specs.Watches.{condition_of, truth_at, truth_of, watched};

use crate::alert::Alert;
use crate::watch::{Ask, Watch};
use kap_base::{Level, NoMemory, Point, Value};
use lambda_eval::outcome;
use lambda_types::Lambda;
use std::alloc::Global;
use task_graph::Conditions;

/// Whether a value is true. Nothing isn't, nor is a value that is no truth value.
fn is_true(value: Option<Value>) -> bool
    ensures { result ≡ is_true value }
{
    match value {
        Some(Value::Bool(truth)) => truth,
        Some(Value::Int(_)) => false,
        Some(Value::Str(_)) => false,
        None => false,
    }
}

/// Whether a condition is true at a point, where it was evaluated `k` times before in the point's group;
/// nothing where there is no condition.
fn truth_at(
    alloc: Global,
    condition: &mut Option<Lambda>,
    k: u64,
    point: &Point,
) -> Result<Option<bool>, NoMemory>
    ensures kept { condition.new ≡ condition.old }
    ensures truth { IfOk result (λ truth. truth ≡ truth_at condition.old k point.now) }
{
    match condition {
        Some(lambda) => {
            let value = outcome(alloc, lambda, k, point)?;
            Ok(Some(is_true(value)))
        }
        None => Ok(None),
    }
}

/// The same of the condition of a level; OK has none.
fn truth_in(
    alloc: Global,
    conditions: &mut Conditions<Lambda>,
    level: Level,
    k: u64,
    point: &Point,
) -> Result<Option<bool>, NoMemory>
    ensures kept { conditions.new ≡ conditions.old }
    ensures truth { IfOk result
        (λ truth. truth ≡ truth_at (condition_of conditions.old level) k point.now) }
{
    match level {
        Level::Fine => Ok(None),
        Level::Info => truth_at(alloc, &mut conditions.info, k, point),
        Level::Warning => truth_at(alloc, &mut conditions.warn, k, point),
        Level::Critical => truth_at(alloc, &mut conditions.crit, k, point),
    }
}

/// Whether an expression or a reset is true at a point, by how often each was evaluated before; nothing where
/// there is none.
fn truth_of(
    alloc: Global,
    alert: &mut Alert,
    watch: &Watch,
    ask: Ask,
    point: &Point,
) -> Result<Option<bool>, NoMemory>
    ensures kept { alert.new ≡ alert.old }
    ensures truth { IfOk result (λ truth. truth ≡ truth_of alert.old watch.now point.now ask) }
{
    let k = watch.count_of(ask);
    match ask {
        Ask::Expression(level) => truth_in(alloc, &mut alert.expressions, level, k, point),
        Ask::Reset(level) => truth_in(alloc, &mut alert.resets, level, k, point),
    }
}

/// The level whose expression or reset it is.
fn level_asked(ask: Ask) -> Level
    ensures { result ≡ level_asked ask }
{
    match ask {
        Ask::Expression(level) => level,
        Ask::Reset(level) => level,
    }
}

/// Whether it decides the level: an expression that is true does, and a reset that isn't.
fn decides(ask: Ask, truth: bool) -> bool
    ensures { result ≡ decides ask truth }
{
    match ask {
        Ask::Expression(_) => truth,
        Ask::Reset(_) => !truth,
    }
}

/// What is evaluated at a level, in order: the expressions of the levels above it, its reset, and the
/// expressions of the levels up to it, each from the highest down.
fn asks_at(level: Level) -> &'static [Ask]
    ensures { result.now ≡ asks_at level }
{
    match level {
        Level::Fine => &[
            Ask::Expression(Level::Critical),
            Ask::Expression(Level::Warning),
            Ask::Expression(Level::Info),
            Ask::Reset(Level::Fine),
        ],
        Level::Info => &[
            Ask::Expression(Level::Critical),
            Ask::Expression(Level::Warning),
            Ask::Reset(Level::Info),
            Ask::Expression(Level::Info),
        ],
        Level::Warning => &[
            Ask::Expression(Level::Critical),
            Ask::Reset(Level::Warning),
            Ask::Expression(Level::Warning),
            Ask::Expression(Level::Info),
        ],
        Level::Critical => &[
            Ask::Reset(Level::Critical),
            Ask::Expression(Level::Critical),
            Ask::Expression(Level::Warning),
            Ask::Expression(Level::Info),
        ],
    }
}

/// The level of a point, which these expressions and resets decide in order, OK where none does; and each
/// evaluation counted.
fn asked(
    alloc: Global,
    alert: &mut Alert,
    watch: Watch,
    asks: &[Ask],
    point: &Point,
) -> Result<Watch, NoMemory>
    ensures kept { alert.new ≡ alert.old }
    ensures watch { IfOk result
        (λ w. w ≡ asked (truth_of alert.old watch point.now) asks.now watch) }
{
    let mut tally = watch;
    let mut rest = asks;
    'asking: while let Some((ask, others)) = rest.split_first() {
        if let Some(truth) = truth_of(alloc, alert, &watch, *ask, point)? {
            tally.count(*ask)?;
            if decides(*ask, truth) {
                tally.level = level_asked(*ask);
                return Ok(tally);
            }
        }
        rest = others;
    }
    tally.level = Level::Fine;
    Ok(tally)
}

/// What is kept of a group behind a point: the point's level, and each evaluation counted.
#[tactic(auto, using(crate::proofs::LevelLaws::asked_is))]
pub(crate) fn watched(
    alloc: Global,
    alert: &mut Alert,
    watch: Watch,
    point: &Point,
) -> Result<Watch, NoMemory>
    ensures kept { alert.new ≡ alert.old }
    ensures watch { IfOk result (λ w. w ≡ watched alert.old watch point.now) }
{
    let asks = asks_at(watch.level);
    asked(alloc, alert, watch, asks, point)
}
