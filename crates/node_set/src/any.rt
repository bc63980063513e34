//! The node that a script makes, whatever its kind.

ghost use Rattle.std.specs.Prelude.{◌≡◌, IfOk, length};
ghost use Rattle.alert_node.specs.Alerts.{alert_of};
ghost use Rattle.basic_nodes.specs.declared.group_kind.GroupKind.TheVariants as groups;
ghost use Rattle.basic_nodes.specs.declared.point_kind.PointKind.TheVariants as points;
ghost use Rattle.basic_nodes.specs.Nodes.{deletion_of, regrouping_of, selection_of};
ghost use Rattle.node_core.specs.Numbering.{plain_seat, rule_seat};
ghost use Rattle.node_set.specs.Kinds.{IsNew};
ghost use Rattle.node_set.specs.Nodes.{any_spec, in_alert, in_change_detect, in_counted_window, in_cumulative_sum, in_difference, in_edge_window, in_elapsed, in_eval, in_group, in_join, in_point, in_select, in_sliding_window, in_state_count, in_union, node_spec, timed_spec, window_spec};
ghost use Rattle.node_set.specs.Seats.{each_sits};

use crate::kinds::AnyNode;
use crate::script_node::ScriptNode;
use alert_node::{Alert, alert_of};
use basic_nodes::{GroupKind, PointKind, deletion_of, regrouping_of, selection_of};
use eval_node::Eval;
use join_node::{Join, Union};
use kap_base::{ItemList, NoMemory, Text};
use lambda_types::Lambda;
use node_core::{plain_node, rule_node};
use select_nodes::Selection;
use state_nodes::{ChangeDetect, CumulativeSum, Difference, Elapsed, StateCount};
use std::alloc::Global;
use task_graph::{
    AlertSpec, DeleteSetting, ElapsedSpec, EvalSpec, FieldSpec, FromSpec, GroupBySpec, JoinSpec,
    Measurement, Period, SelectSpec, SharedNames, Span, Spec, StateCountSpec, WindowSpec,
};
use task_run::Ids;
use window_node::{CountedWindow, EdgeWindow, SlidingWindow, period_of};

/// The node of a kind that treats each point by itself.
fn point(alloc: Global, life: u32, number: u32, kind: PointKind) -> AnyNode
    ensures { IsNew result (in_point (plain_seat life number kind)) }
{
    AnyNode::Point(plain_node(alloc, life, number, kind))
}

/// The node of a kind that goes by how many points of its group came before.
fn group(alloc: Global, life: u32, number: u32, kind: GroupKind) -> AnyNode
    ensures { IsNew result (in_group (rule_seat life number kind)) }
{
    AnyNode::Group(rule_node(alloc, life, number, kind))
}

/// The node `from`.
fn from(alloc: Global, life: u32, number: u32, spec: FromSpec<Lambda>) -> Result<AnyNode, NoMemory>
    ensures { IfOk result (λ n. IsNew n
        (in_group (rule_seat life number (groups.From (selection_of spec))))) }
{
    match selection_of(alloc, spec) {
        Ok(selection) => Ok(group(alloc, life, number, GroupKind::From(selection))),
        Err(NoMemory) => Err(NoMemory),
    }
}

/// The node `groupBy`.
fn group_by(alloc: Global, life: u32, number: u32, spec: GroupBySpec) -> Result<AnyNode, NoMemory>
    ensures { IfOk result (λ n. IsNew n
        (in_point (plain_seat life number (points.GroupBy (regrouping_of spec))))) }
{
    match regrouping_of(alloc, spec) {
        Ok(regrouping) => Ok(point(alloc, life, number, PointKind::GroupBy(regrouping))),
        Err(NoMemory) => Err(NoMemory),
    }
}

/// The node `delete`.
fn delete(
    alloc: Global,
    life: u32,
    number: u32,
    settings: ItemList<DeleteSetting>,
) -> Result<AnyNode, NoMemory>
    ensures { IfOk result (λ n. IsNew n
        (in_point (plain_seat life number (points.Delete (deletion_of settings))))) }
{
    match deletion_of(alloc, settings) {
        Ok(deletion) => Ok(point(alloc, life, number, PointKind::Delete(deletion))),
        Err(NoMemory) => Err(NoMemory),
    }
}

/// The node `shift`, by so many nanoseconds.
fn shift(alloc: Global, life: u32, number: u32, by: i64) -> AnyNode
    ensures { IsNew result (in_point (plain_seat life number (points.Shift by))) }
{
    point(alloc, life, number, PointKind::Shift(by))
}

/// The node `eval`.
fn eval(alloc: Global, life: u32, number: u32, spec: EvalSpec<Lambda>) -> AnyNode
    ensures { IsNew result (in_eval (rule_seat life number spec)) }
{
    AnyNode::Eval(rule_node(alloc, life, number, Eval::from_spec(spec)))
}

/// The node `stateCount`.
fn state_count(alloc: Global, life: u32, number: u32, spec: StateCountSpec<Lambda>) -> AnyNode
    ensures { IsNew result (in_state_count (rule_seat life number (record { spec = spec }))) }
{
    AnyNode::StateCount(rule_node(alloc, life, number, StateCount { spec }))
}

/// The node `changeDetect`.
fn change_detect(alloc: Global, life: u32, number: u32, names: SharedNames) -> AnyNode
    ensures { IsNew result (in_change_detect (rule_seat life number (record { names = names }))) }
{
    AnyNode::ChangeDetect(rule_node(alloc, life, number, ChangeDetect { names }))
}

/// The node `difference`.
fn difference(alloc: Global, life: u32, number: u32, spec: FieldSpec) -> AnyNode
    ensures { IsNew result (in_difference (rule_seat life number (record { spec = spec }))) }
{
    AnyNode::Difference(rule_node(alloc, life, number, Difference { spec }))
}

/// The node `cumulativeSum`.
fn cumulative_sum(alloc: Global, life: u32, number: u32, spec: FieldSpec) -> AnyNode
    ensures { IsNew result (in_cumulative_sum (rule_seat life number (record { spec = spec }))) }
{
    AnyNode::CumulativeSum(rule_node(alloc, life, number, CumulativeSum { spec }))
}

/// The node `elapsed`.
fn elapsed(alloc: Global, life: u32, number: u32, spec: ElapsedSpec) -> AnyNode
    ensures { IsNew result (in_elapsed (rule_seat life number (record { spec = spec }))) }
{
    AnyNode::Elapsed(rule_node(alloc, life, number, Elapsed { spec }))
}

/// A window with edges.
fn edge_window(alloc: Global, life: u32, number: u32, rule: EdgeWindow) -> AnyNode
    ensures { IsNew result (in_edge_window (rule_seat life number rule)) }
{
    AnyNode::EdgeWindow(rule_node(alloc, life, number, rule))
}

/// A window that slides.
fn sliding_window(alloc: Global, life: u32, number: u32, rule: SlidingWindow) -> AnyNode
    ensures { IsNew result (in_sliding_window (rule_seat life number rule)) }
{
    AnyNode::SlidingWindow(rule_node(alloc, life, number, rule))
}

/// A window by the number of points.
fn counted_window(alloc: Global, life: u32, number: u32, rule: CountedWindow) -> AnyNode
    ensures { IsNew result (in_counted_window (rule_seat life number rule)) }
{
    AnyNode::CountedWindow(rule_node(alloc, life, number, rule))
}

/// A window by time.
fn timed(
    alloc: Global,
    life: u32,
    number: u32,
    period: Period,
    every: Span,
    align: bool,
    fill_period: bool,
) -> AnyNode
    ensures { IsNew result (timed_spec life number period every align fill_period) }
{
    match period_of(&every) {
        Some(every) => {
            let rule = EdgeWindow {
                period,
                every,
                align,
                fill_period,
            };
            edge_window(alloc, life, number, rule)
        }
        None => {
            let rule = SlidingWindow {
                period,
                fill_period,
            };
            sliding_window(alloc, life, number, rule)
        }
    }
}

/// The node `window`.
fn window(alloc: Global, life: u32, number: u32, spec: WindowSpec) -> AnyNode
    ensures { IsNew result (window_spec life number spec) }
{
    match spec {
        WindowSpec::Timed {
            period,
            every,
            align,
            fill_period,
        } => timed(alloc, life, number, period, every, align, fill_period),
        WindowSpec::Counted {
            period_count,
            every_count,
            fill_period,
        } => {
            let rule = CountedWindow {
                period_count,
                every_count,
                fill_period,
            };
            counted_window(alloc, life, number, rule)
        }
    }
}

/// The node of one of the selects.
fn select(alloc: Global, life: u32, number: u32, spec: SelectSpec) -> AnyNode
    ensures { IsNew result (in_select (plain_seat life number (record { spec = spec }))) }
{
    AnyNode::Select(plain_node(alloc, life, number, Selection { spec }))
}

/// The node `join`.
fn join(alloc: Global, life: u32, number: u32, spec: JoinSpec) -> AnyNode
    ensures { IsNew result (in_join (rule_seat life number (record { spec = spec }))) }
{
    AnyNode::Join(rule_node(alloc, life, number, Join { spec }))
}

/// How many parents these are.
fn count(parents: &Ids) -> Result<u32, NoMemory>
    ensures { IfOk result (λ n. n ≡ length parents.now) }
{
    match u32::try_from(parents.len()) {
        Ok(count) => Ok(count),
        Err(_) => Err(NoMemory),
    }
}

/// A union.
fn union_of(alloc: Global, life: u32, number: u32, rule: Union) -> AnyNode
    ensures { IsNew result (in_union (plain_seat life number rule)) }
{
    AnyNode::Union(plain_node(alloc, life, number, rule))
}

/// The node `union`, under these parents.
fn union(
    alloc: Global,
    life: u32,
    number: u32,
    parents: &Ids,
    rename: Option<Measurement>,
) -> Result<AnyNode, NoMemory>
    ensures { IfOk result (λ n. IsNew n
        (in_union (plain_seat life number (record { parents = length parents.now; rename = rename })))) }
{
    match count(parents) {
        Ok(parents) => {
            let rule = Union { parents, rename };
            Ok(union_of(alloc, life, number, rule))
        }
        Err(NoMemory) => Err(NoMemory),
    }
}

/// An alert.
fn alert_by(alloc: Global, life: u32, number: u32, rule: Alert) -> AnyNode
    ensures { IsNew result (in_alert (rule_seat life number rule)) }
{
    AnyNode::Alert(rule_node(alloc, life, number, rule))
}

/// The node `alert`, of this name in the task of this id.
fn alert(
    alloc: Global,
    task: &Text,
    life: u32,
    number: u32,
    name: &Text,
    spec: AlertSpec<Lambda>,
) -> Result<AnyNode, NoMemory>
    ensures { IfOk result (λ n. IsNew n
        (in_alert (rule_seat life number (alert_of task.now name.now spec)))) }
{
    match alert_of(alloc, task, name, spec) {
        Ok(rule) => Ok(alert_by(alloc, life, number, rule)),
        Err(NoMemory) => Err(NoMemory),
    }
}

/// The node that a script makes by handing this to its node of this name with these parents, in its first
/// state: in a life of the task of this id, and with its number there. `NoMemory` comes where an allocation
/// fails.
pub fn any_node(
    alloc: Global,
    task: &Text,
    life: u32,
    number: u32,
    name: &Text,
    parents: &Ids,
    spec: Spec,
) -> Result<AnyNode, NoMemory>
    ensures { IfOk result (λ n. IsNew n
        (any_spec task.now life number name.now (length parents.now) spec)) }
{
    match spec {
        Spec::Stream(dbrps) => Ok(point(alloc, life, number, PointKind::Stream(dbrps))),
        Spec::From(spec) => from(alloc, life, number, spec),
        Spec::Where(condition) => Ok(group(alloc, life, number, GroupKind::Where(condition))),
        Spec::GroupBy(spec) => group_by(alloc, life, number, spec),
        Spec::Log(_) => Ok(point(alloc, life, number, PointKind::Log)),
        Spec::Default(settings) => Ok(point(alloc, life, number, PointKind::Default(settings))),
        Spec::Delete(settings) => delete(alloc, life, number, settings),
        Spec::Shift(by) => Ok(shift(alloc, life, number, by)),
        Spec::Sample(n) => Ok(group(alloc, life, number, GroupKind::Sample(n))),
        Spec::Eval(spec) => Ok(eval(alloc, life, number, spec)),
        Spec::StateCount(spec) => Ok(state_count(alloc, life, number, spec)),
        Spec::ChangeDetect(names) => Ok(change_detect(alloc, life, number, names)),
        Spec::Difference(spec) => Ok(difference(alloc, life, number, spec)),
        Spec::CumulativeSum(spec) => Ok(cumulative_sum(alloc, life, number, spec)),
        Spec::Elapsed(spec) => Ok(elapsed(alloc, life, number, spec)),
        Spec::Window(spec) => Ok(window(alloc, life, number, spec)),
        Spec::Select(spec) => Ok(select(alloc, life, number, spec)),
        Spec::Union(rename) => union(alloc, life, number, parents, rename),
        Spec::Join(spec) => Ok(join(alloc, life, number, spec)),
        Spec::Alert(spec) => alert(alloc, task, life, number, name, spec),
    }
}

impl ScriptNode for AnyNode {
    ghost planned = { node_spec };

    #[tactic(auto, using(crate::proofs::NewLaws::has_spec, crate::proofs::NewLaws::is_first))]
    fn of_script(
        alloc: Global,
        task: &Text,
        life: u32,
        number: u32,
        name: &Text,
        parents: &Ids,
        spec: Spec,
    ) -> Result<AnyNode, NoMemory> {
        any_node(alloc, task, life, number, name, parents, spec)
    }

    ghost sits = { each_sits };
}
