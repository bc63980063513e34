//! `union` and `join`.

ghost use Rattle.std.specs.Prelude.{◌≡◌, IfOk, codes};
ghost use Rattle.kap_base.specs.Words.{Answers};
ghost use Rattle.task_graph.specs.Graphs.{are_different};
ghost use Rattle.tick_compile.specs.Joins.{join_rows, join_spec, lent, no_join, rename_rows, union_spec};
ghost use Rattle.tick_compile.specs.Rows.{set_by, set_named};

use crate::given::{Args, Node, Setting};
use crate::names::is_named;
use crate::node_fault::NodeFault;
use crate::props::{Props, set_all};
use crate::readers::{all, one};
use kap_base::{ItemList, NoMemory};
use std::alloc::Global;
use std::collections::HashSet;
use task_graph::{Fill, Ids, JoinSpec, Measurement, Name, Span, Spec};

/// The name of what a union gives on, which is its one property.
impl<L: Drop> Props<L> for Option<Measurement> {
    ghost sets = { set_by rename_rows };

    fn set(self, alloc: Global, prop: Setting<L>) -> Result<Option<Measurement>, NodeFault>
        ensures { Answers NodeFault.NoMemory result (set_by rename_rows self prop) }
    {
        let Setting { name, args, at } = prop;
        if is_named(&name, "rename") {
            return Ok(Some(one(alloc, args, at)?));
        }
        Err(NodeFault::Property(at))
    }
}

/// `union(node..)`.
pub(crate) fn union_spec<L: Drop>(alloc: Global, node: Node<L>) -> Result<Spec<L>, NodeFault>
    ensures { Answers NodeFault.NoMemory result (union_spec node) }
{
    let Node {
        args,
        props,
        at,
        ..
    } = node;
    let nodes: Ids = all(alloc, args, at)?;
    if nodes.len() == 0 {
        return Err(NodeFault::Argument(at));
    }
    let name = set_all(alloc, props, None)?;
    Ok(Spec::Union(name))
}

/// `.as(s..)`.
fn set_as<L: Drop>(
    alloc: Global,
    mut join: JoinSpec,
    args: Args<L>,
    at: u32,
) -> Result<JoinSpec, NodeFault>
    ensures { Answers NodeFault.NoMemory result (set_named join_rows join (codes "as") args at) }
{
    join.prefixes = all(alloc, args, at)?;
    Ok(join)
}

/// `.tolerance(d)`.
fn set_tolerance<L: Drop>(
    alloc: Global,
    mut join: JoinSpec,
    args: Args<L>,
    at: u32,
) -> Result<JoinSpec, NodeFault>
    ensures { Answers NodeFault.NoMemory result (set_named join_rows join (codes "tolerance") args at) }
{
    join.tolerance = one(alloc, args, at)?;
    Ok(join)
}

/// `.fill(x)`.
fn set_fill<L: Drop>(
    alloc: Global,
    mut join: JoinSpec,
    args: Args<L>,
    at: u32,
) -> Result<JoinSpec, NodeFault>
    ensures { Answers NodeFault.NoMemory result (set_named join_rows join (codes "fill") args at) }
{
    join.fill = one(alloc, args, at)?;
    Ok(join)
}

/// `.streamName(s)`.
fn set_stream_name<L: Drop>(
    alloc: Global,
    mut join: JoinSpec,
    args: Args<L>,
    at: u32,
) -> Result<JoinSpec, NodeFault>
    ensures { Answers NodeFault.NoMemory result (set_named join_rows join (codes "streamName") args at) }
{
    join.stream_name = Some(one(alloc, args, at)?);
    Ok(join)
}

/// `.delimiter(s)`.
fn set_delimiter<L: Drop>(
    alloc: Global,
    mut join: JoinSpec,
    args: Args<L>,
    at: u32,
) -> Result<JoinSpec, NodeFault>
    ensures { Answers NodeFault.NoMemory result (set_named join_rows join (codes "delimiter") args at) }
{
    join.delimiter = Some(one(alloc, args, at)?);
    Ok(join)
}

impl<L: Drop> Props<L> for JoinSpec {
    ghost sets = { set_by join_rows };

    fn set(self, alloc: Global, prop: Setting<L>) -> Result<JoinSpec, NodeFault>
        ensures { Answers NodeFault.NoMemory result (set_by join_rows self prop) }
    {
        let Setting { name, args, at } = prop;
        if is_named(&name, "as") {
            return set_as(alloc, self, args, at);
        }
        if is_named(&name, "tolerance") {
            return set_tolerance(alloc, self, args, at);
        }
        if is_named(&name, "fill") {
            return set_fill(alloc, self, args, at);
        }
        if is_named(&name, "streamName") {
            return set_stream_name(alloc, self, args, at);
        }
        if is_named(&name, "delimiter") {
            return set_delimiter(alloc, self, args, at);
        }
        Err(NodeFault::Property(at))
    }
}

/// No property of `join`.
fn no_join(alloc: Global) -> JoinSpec
    ensures { result ≡ no_join }
{
    JoinSpec {
        prefixes: ItemList::new(alloc),
        tolerance: Span::zero(),
        fill: Fill::None,
        stream_name: None,
        delimiter: None,
    }
}

/// The texts of these names, lent.
fn lent<'a>(alloc: Global, names: &'a [Name]) -> Result<Vec<&'a str>, NoMemory>
    ensures { IfOk result (λ texts. lent texts.items ≡ names.now) }
{
    let mut texts = Vec::new(alloc);
    'lending: for name in names {
        texts.push(name.text().as_str())?;
    }
    Ok(texts)
}

/// Whether no two of these texts are the same.
fn all_differ(alloc: Global, texts: &[&str]) -> Result<bool, NoMemory>
    ensures { IfOk result (λ differ. differ ≡ are_different (lent texts.now)) }
{
    let set: HashSet<&str> = texts.iter().copied().collect(alloc)?;
    Ok(set.len() == texts.len())
}

/// Whether no two of these names are the same.
fn are_different(alloc: Global, names: &[Name]) -> Result<bool, NoMemory>
    ensures { IfOk result (λ different. different ≡ are_different names.now) }
{
    let texts = lent(alloc, names)?;
    all_differ(alloc, &texts)
}

/// `join(node..)`.
pub(crate) fn join_spec<L: Drop>(alloc: Global, node: Node<L>) -> Result<Spec<L>, NodeFault>
    ensures { Answers NodeFault.NoMemory result (join_spec node) }
{
    let Node {
        args,
        props,
        at,
        ..
    } = node;
    let nodes: Ids = all(alloc, args, at)?;
    let join = set_all(alloc, props, no_join(alloc))?;
    if join.prefixes.len() != nodes.len() + 1 {
        return Err(NodeFault::Argument(at));
    }
    if !are_different(alloc, join.prefixes.as_slice())? {
        return Err(NodeFault::Argument(at));
    }
    Ok(Spec::Join(join))
}
