//! `stateCount`, `changeDetect`, `difference`, `cumulativeSum` and `elapsed`.

ghost use Rattle.std.specs.Prelude.{◌≡◌};
ghost use Rattle.kap_base.specs.Words.{Answers};
ghost use Rattle.tick_compile.specs.Rows.{set_by};
ghost use Rattle.tick_compile.specs.States.{as_rows, change_detect_spec, cumulative_sum_spec, difference_spec, elapsed_spec, field_spec, state_count_spec, state_named, state_spec};

use crate::given::{Node, Setting};
use crate::names::is_named;
use crate::node_fault::NodeFault;
use crate::props::{Props, no_props, set_all};
use crate::readers::{all, lambda, one, pair};
use kap_base::Text;
use std::alloc::Global;
use task_graph::{ElapsedSpec, FieldSpec, Name, Spec, StateCountSpec};

/// A kind of node that keeps a state for each group.
#[derive(Clone, Copy)]
pub(crate) enum StateKind {
    StateCount,
    ChangeDetect,
    Difference,
    CumulativeSum,
    Elapsed,
}

/// The kind of this name.
pub(crate) fn state_named(name: &Text) -> Option<StateKind>
    ensures { result ≡ state_named name.now }
{
    if is_named(name, "stateCount") {
        Some(StateKind::StateCount)
    } else if is_named(name, "changeDetect") {
        Some(StateKind::ChangeDetect)
    } else if is_named(name, "difference") {
        Some(StateKind::Difference)
    } else if is_named(name, "cumulativeSum") {
        Some(StateKind::CumulativeSum)
    } else if is_named(name, "elapsed") {
        Some(StateKind::Elapsed)
    } else {
        None
    }
}

/// The name of the result, which is the one property of these kinds.
impl<L: Drop> Props<L> for Option<Name> {
    ghost sets = { set_by as_rows };

    fn set(self, alloc: Global, prop: Setting<L>) -> Result<Option<Name>, NodeFault>
        ensures { Answers NodeFault.NoMemory result (set_by as_rows self prop) }
    {
        let Setting { name, args, at } = prop;
        if is_named(&name, "as") {
            return Ok(Some(one(alloc, args, at)?));
        }
        Err(NodeFault::Property(at))
    }
}

/// `stateCount(l)`.
fn state_count_spec<L: Drop>(alloc: Global, node: Node<L>) -> Result<Spec<L>, NodeFault>
    ensures { Answers NodeFault.NoMemory result (state_count_spec node) }
{
    let Node {
        args,
        props,
        at,
        ..
    } = node;
    let condition = lambda(args, at)?;
    let name = set_all(alloc, props, None)?;
    Ok(Spec::StateCount(StateCountSpec { condition, name }))
}

/// `changeDetect(f..)`.
fn change_detect_spec<L: Drop>(alloc: Global, node: Node<L>) -> Result<Spec<L>, NodeFault>
    ensures { Answers NodeFault.NoMemory result (change_detect_spec node) }
{
    let Node {
        args,
        props,
        at,
        ..
    } = node;
    let fields = all(alloc, args, at)?;
    no_props(&props)?;
    Ok(Spec::ChangeDetect(fields))
}

/// A field, and the name of the result.
fn field_spec<L: Drop>(alloc: Global, node: Node<L>) -> Result<FieldSpec, NodeFault>
    ensures { Answers NodeFault.NoMemory result (field_spec node) }
{
    let Node {
        args,
        props,
        at,
        ..
    } = node;
    let field = one(alloc, args, at)?;
    let name = set_all(alloc, props, None)?;
    Ok(FieldSpec { field, name })
}

/// `difference(f)`.
fn difference_spec<L: Drop>(alloc: Global, node: Node<L>) -> Result<Spec<L>, NodeFault>
    ensures { Answers NodeFault.NoMemory result (difference_spec node) }
{
    Ok(Spec::Difference(field_spec(alloc, node)?))
}

/// `cumulativeSum(f)`.
fn cumulative_sum_spec<L: Drop>(alloc: Global, node: Node<L>) -> Result<Spec<L>, NodeFault>
    ensures { Answers NodeFault.NoMemory result (cumulative_sum_spec node) }
{
    Ok(Spec::CumulativeSum(field_spec(alloc, node)?))
}

/// `elapsed(f, d)`.
fn elapsed_spec<L: Drop>(alloc: Global, node: Node<L>) -> Result<Spec<L>, NodeFault>
    ensures { Answers NodeFault.NoMemory result (elapsed_spec node) }
{
    let Node {
        args,
        props,
        at,
        ..
    } = node;
    let (field, unit) = pair(alloc, args, at)?;
    let name = set_all(alloc, props, None)?;
    Ok(Spec::Elapsed(ElapsedSpec { field, unit, name }))
}

/// What a node of this kind is given.
pub(crate) fn state_spec<L: Drop>(
    alloc: Global,
    kind: StateKind,
    node: Node<L>,
) -> Result<Spec<L>, NodeFault>
    ensures { Answers NodeFault.NoMemory result (state_spec kind node) }
{
    match kind {
        StateKind::StateCount => state_count_spec(alloc, node),
        StateKind::ChangeDetect => change_detect_spec(alloc, node),
        StateKind::Difference => difference_spec(alloc, node),
        StateKind::CumulativeSum => cumulative_sum_spec(alloc, node),
        StateKind::Elapsed => elapsed_spec(alloc, node),
    }
}
