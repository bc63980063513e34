//! `from`, `where` and `sample`.

ghost use Rattle.std.specs.Prelude.{codes};
ghost use Rattle.kap_base.specs.Words.{Answers};
ghost use Rattle.tick_compile.specs.Rows.{set_by, set_named};
ghost use Rattle.tick_compile.specs.Filters.{from_rows, from_spec, sample_spec, where_spec};

use crate::given::{Args, Node, Setting};
use crate::names::is_named;
use crate::node_fault::NodeFault;
use crate::props::{Props, no_props, set_all};
use crate::readers::{dimensions, lambda, nothing, one};
use kap_base::ItemList;
use std::alloc::Global;
use task_graph::{Dims, FromSpec, Spec};

/// `.database(s)`.
fn set_database<L: Drop>(
    alloc: Global,
    mut from: FromSpec<L>,
    args: Args<L>,
    at: u32,
) -> Result<FromSpec<L>, NodeFault>
    ensures { Answers NodeFault.NoMemory result (set_named from_rows from (codes "database") args at) }
{
    from.database = Some(one(alloc, args, at)?);
    Ok(from)
}

/// `.retentionPolicy(s)`.
fn set_retention_policy<L: Drop>(
    alloc: Global,
    mut from: FromSpec<L>,
    args: Args<L>,
    at: u32,
) -> Result<FromSpec<L>, NodeFault>
    ensures { Answers NodeFault.NoMemory result (set_named from_rows from (codes "retentionPolicy") args at) }
{
    from.retention_policy = Some(one(alloc, args, at)?);
    Ok(from)
}

/// `.measurement(s)`.
fn set_measurement<L: Drop>(
    alloc: Global,
    mut from: FromSpec<L>,
    args: Args<L>,
    at: u32,
) -> Result<FromSpec<L>, NodeFault>
    ensures { Answers NodeFault.NoMemory result (set_named from_rows from (codes "measurement") args at) }
{
    from.measurement = Some(one(alloc, args, at)?);
    Ok(from)
}

/// `.where(l)`.
fn set_where<L: Drop>(
    mut from: FromSpec<L>,
    args: Args<L>,
    at: u32,
) -> Result<FromSpec<L>, NodeFault>
    ensures { Answers NodeFault.NoMemory result (set_named from_rows from (codes "where") args at) }
{
    from.conditions.push(lambda(args, at)?)?;
    Ok(from)
}

/// `.groupBy(s..)` or `.groupBy(*)`.
fn set_group_by<L: Drop>(
    alloc: Global,
    mut from: FromSpec<L>,
    args: Args<L>,
    at: u32,
) -> Result<FromSpec<L>, NodeFault>
    ensures { Answers NodeFault.NoMemory result (set_named from_rows from (codes "groupBy") args at) }
{
    from.dims = dimensions(alloc, args, at)?;
    Ok(from)
}

/// `.groupByMeasurement()`.
fn set_group_by_measurement<L: Drop>(
    mut from: FromSpec<L>,
    args: Args<L>,
    at: u32,
) -> Result<FromSpec<L>, NodeFault>
    ensures { Answers NodeFault.NoMemory result
        (set_named from_rows from (codes "groupByMeasurement") args at) }
{
    nothing(args, at)?;
    from.by_measurement = true;
    Ok(from)
}

impl<L: Drop> Props<L> for FromSpec<L> {
    ghost sets = { set_by from_rows };

    fn set(self, alloc: Global, prop: Setting<L>) -> Result<FromSpec<L>, NodeFault>
        ensures { Answers NodeFault.NoMemory result (set_by from_rows self prop) }
    {
        let Setting { name, args, at } = prop;
        if is_named(&name, "database") {
            return set_database(alloc, self, args, at);
        }
        if is_named(&name, "retentionPolicy") {
            return set_retention_policy(alloc, self, args, at);
        }
        if is_named(&name, "measurement") {
            return set_measurement(alloc, self, args, at);
        }
        if is_named(&name, "where") {
            return set_where(self, args, at);
        }
        if is_named(&name, "groupBy") {
            return set_group_by(alloc, self, args, at);
        }
        if is_named(&name, "groupByMeasurement") {
            return set_group_by_measurement(self, args, at);
        }
        Err(NodeFault::Property(at))
    }
}

/// `from()`.
pub(crate) fn from_spec<L: Drop>(alloc: Global, node: Node<L>) -> Result<Spec<L>, NodeFault>
    ensures { Answers NodeFault.NoMemory result (from_spec node) }
{
    let Node {
        args,
        props,
        at,
        ..
    } = node;
    nothing(args, at)?;
    let first = FromSpec {
        database: None,
        retention_policy: None,
        measurement: None,
        conditions: ItemList::new(alloc),
        dims: Dims::Names(ItemList::new(alloc)),
        by_measurement: false,
    };
    Ok(Spec::From(set_all(alloc, props, first)?))
}

/// `where(l)`.
pub(crate) fn where_spec<L: Drop>(node: Node<L>) -> Result<Spec<L>, NodeFault>
    ensures { Answers NodeFault.NoMemory result (where_spec node) }
{
    let Node {
        args,
        props,
        at,
        ..
    } = node;
    let lambda = lambda(args, at)?;
    no_props(&props)?;
    Ok(Spec::Where(lambda))
}

/// `sample(n)`.
pub(crate) fn sample_spec<L: Drop>(alloc: Global, node: Node<L>) -> Result<Spec<L>, NodeFault>
    ensures { Answers NodeFault.NoMemory result (sample_spec node) }
{
    let Node {
        args,
        props,
        at,
        ..
    } = node;
    let count = one(alloc, args, at)?;
    no_props(&props)?;
    Ok(Spec::Sample(count))
}
