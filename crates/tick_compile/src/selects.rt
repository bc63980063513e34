//! The select nodes.

ghost use Rattle.std.specs.Prelude.{◌≡◌, codes};
ghost use Rattle.kap_base.specs.Words.{Answers};
ghost use Rattle.tick_compile.specs.Rows.{set_by, set_named};
ghost use Rattle.tick_compile.specs.Selects.{no_select, rank_named, rank_spec, ranked, select_named, select_rows, select_spec, selected};

use crate::given::{Args, Node, Setting};
use crate::names::is_named;
use crate::node_fault::NodeFault;
use crate::props::{Props, set_all};
use crate::readers::{nothing, one, pair};
use kap_base::Text;
use std::alloc::Global;
use task_graph::{Count, Name, Select, SelectSpec, Spec};

/// Which points a node chooses that is told how many.
#[derive(Clone, Copy)]
pub(crate) enum Rank {
    Top,
    Bottom,
}

/// What a node of this name chooses, where it takes a field alone.
pub(crate) fn select_named(name: &Text) -> Option<Select>
    ensures { result ≡ select_named name.now }
{
    if is_named(name, "sum") {
        Some(Select::Sum)
    } else if is_named(name, "count") {
        Some(Select::Count)
    } else if is_named(name, "min") {
        Some(Select::Min)
    } else if is_named(name, "max") {
        Some(Select::Max)
    } else if is_named(name, "first") {
        Some(Select::First)
    } else if is_named(name, "last") {
        Some(Select::Last)
    } else if is_named(name, "spread") {
        Some(Select::Spread)
    } else if is_named(name, "distinct") {
        Some(Select::Distinct)
    } else {
        None
    }
}

/// Which points a node of this name chooses, where it is told how many.
pub(crate) fn rank_named(name: &Text) -> Option<Rank>
    ensures { result ≡ rank_named name.now }
{
    if is_named(name, "top") {
        Some(Rank::Top)
    } else if is_named(name, "bottom") {
        Some(Rank::Bottom)
    } else {
        None
    }
}

/// The properties of a select node.
#[derive(Drop)]
pub(crate) struct SelectProps {
    pub(crate) name: Option<Name>,
    pub(crate) use_point_times: bool,
}

/// `.as(s)`.
fn set_as<L: Drop>(
    alloc: Global,
    mut props: SelectProps,
    args: Args<L>,
    at: u32,
) -> Result<SelectProps, NodeFault>
    ensures { Answers NodeFault.NoMemory result (set_named select_rows props (codes "as") args at) }
{
    props.name = Some(one(alloc, args, at)?);
    Ok(props)
}

/// `.usePointTimes()`.
fn set_use_point_times<L: Drop>(
    mut props: SelectProps,
    args: Args<L>,
    at: u32,
) -> Result<SelectProps, NodeFault>
    ensures { Answers NodeFault.NoMemory result
        (set_named select_rows props (codes "usePointTimes") args at) }
{
    nothing(args, at)?;
    props.use_point_times = true;
    Ok(props)
}

impl<L: Drop> Props<L> for SelectProps {
    ghost sets = { set_by select_rows };

    fn set(self, alloc: Global, prop: Setting<L>) -> Result<SelectProps, NodeFault>
        ensures { Answers NodeFault.NoMemory result (set_by select_rows self prop) }
    {
        let Setting { name, args, at } = prop;
        if is_named(&name, "as") {
            return set_as(alloc, self, args, at);
        }
        if is_named(&name, "usePointTimes") {
            return set_use_point_times(self, args, at);
        }
        Err(NodeFault::Property(at))
    }
}

/// No property of a select node.
fn no_select() -> SelectProps
    ensures { result ≡ no_select }
{
    SelectProps {
        name: None,
        use_point_times: false,
    }
}

/// What is chosen by a field, with these properties.
fn selected<L>(select: Select, field: Text, props: SelectProps) -> Spec<L>
    ensures { result ≡ selected select field props }
{
    let SelectProps {
        name,
        use_point_times,
    } = props;
    Spec::Select(SelectSpec {
        select,
        field,
        name,
        use_point_times,
    })
}

/// A select node that takes a field alone.
pub(crate) fn select_spec<L: Drop>(
    alloc: Global,
    select: Select,
    node: Node<L>,
) -> Result<Spec<L>, NodeFault>
    ensures { Answers NodeFault.NoMemory result (select_spec select node) }
{
    let Node {
        args,
        props,
        at,
        ..
    } = node;
    let field = one(alloc, args, at)?;
    let props = set_all(alloc, props, no_select())?;
    Ok(selected(select, field, props))
}

/// The choice of so many points.
fn ranked(rank: Rank, count: Count) -> Select
    ensures { result ≡ ranked rank count }
{
    match rank {
        Rank::Top => Select::Top(count),
        Rank::Bottom => Select::Bottom(count),
    }
}

/// `top(n, f)` or `bottom(n, f)`.
pub(crate) fn rank_spec<L: Drop>(
    alloc: Global,
    rank: Rank,
    node: Node<L>,
) -> Result<Spec<L>, NodeFault>
    ensures { Answers NodeFault.NoMemory result (rank_spec rank node) }
{
    let Node {
        args,
        props,
        at,
        ..
    } = node;
    let (count, field) = pair(alloc, args, at)?;
    let props = set_all(alloc, props, no_select())?;
    Ok(selected(ranked(rank, count), field, props))
}
