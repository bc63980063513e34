//! `eval`, `groupBy`, `log`, `default`, `delete` and `shift`.

ghost use Rattle.std.specs.Prelude.{◌≡◌, IfOk, codes};
ghost use Rattle.kap_base.specs.Words.{Answers};
ghost use Rattle.tick_compile.specs.Rows.{set_by, set_named};
ghost use Rattle.tick_compile.specs.Changes.{default_rows, default_spec, delete_rows, delete_spec, eval_results, eval_rows, eval_spec, group_by_rows, group_by_spec, kept, log_rows, log_spec, shift_spec};

use crate::given::{Args, Node, Setting};
use crate::names::is_named;
use crate::node_fault::NodeFault;
use crate::props::{Props, no_props, set_all};
use crate::readers::{all, dimensions, lambdas, nothing, one, pair};
use kap_base::{ItemList, NoMemory};
use std::alloc::Global;
use task_graph::{
    DefaultSetting, DeleteSetting, EvalResult, EvalSpec, GroupBySpec, Keep, LogSpec, Name,
    SharedNames, Spec,
};

/// The properties of `eval`.
#[derive(Drop)]
pub(crate) struct EvalProps {
    pub(crate) names: ItemList<Name>,
    pub(crate) keep: Keep,
}

/// What is kept of the fields.
fn kept(names: SharedNames) -> Keep
    ensures { result ≡ kept names }
{
    if names.len() == 0 {
        Keep::All
    } else {
        Keep::Names(names)
    }
}

/// `.as(s..)`.
fn set_as<L: Drop>(
    alloc: Global,
    mut eval: EvalProps,
    args: Args<L>,
    at: u32,
) -> Result<EvalProps, NodeFault>
    ensures { Answers NodeFault.NoMemory result (set_named eval_rows eval (codes "as") args at) }
{
    eval.names = all(alloc, args, at)?;
    Ok(eval)
}

/// `.keep(s..)`.
fn set_keep<L: Drop>(
    alloc: Global,
    mut eval: EvalProps,
    args: Args<L>,
    at: u32,
) -> Result<EvalProps, NodeFault>
    ensures { Answers NodeFault.NoMemory result (set_named eval_rows eval (codes "keep") args at) }
{
    eval.keep = kept(all(alloc, args, at)?);
    Ok(eval)
}

impl<L: Drop> Props<L> for EvalProps {
    ghost sets = { set_by eval_rows };

    fn set(self, alloc: Global, prop: Setting<L>) -> Result<EvalProps, NodeFault>
        ensures { Answers NodeFault.NoMemory result (set_by eval_rows self prop) }
    {
        let Setting { name, args, at } = prop;
        if is_named(&name, "as") {
            return set_as(alloc, self, args, at);
        }
        if is_named(&name, "keep") {
            return set_keep(alloc, self, args, at);
        }
        Err(NodeFault::Property(at))
    }
}

/// Each lambda with its name.
fn eval_results<L: Drop>(
    alloc: Global,
    lambdas: ItemList<L>,
    names: ItemList<Name>,
) -> Result<ItemList<EvalResult<L>>, NoMemory>
    ensures { IfOk result (λ results. results ≡ eval_results lambdas names) }
{
    let mut results = ItemList::new(alloc);
    let mut names = names.into_items().into_iter();
    'pairing: for lambda in lambdas.into_items() {
        let Some(name) = names.next() else {
            return Ok(results);
        };
        results.push(EvalResult { lambda, name })?;
    }
    Ok(results)
}

/// `eval(l..)`.
pub(crate) fn eval_spec<L: Drop>(alloc: Global, node: Node<L>) -> Result<Spec<L>, NodeFault>
    ensures { Answers NodeFault.NoMemory result (eval_spec node) }
{
    let Node {
        args,
        props,
        at,
        ..
    } = node;
    let lambdas = lambdas(alloc, args, at)?;
    let first = EvalProps {
        names: ItemList::new(alloc),
        keep: Keep::Results,
    };
    let EvalProps { names, keep } = set_all(alloc, props, first)?;
    if lambdas.len() == 0 {
        return Err(NodeFault::Argument(at));
    }
    if lambdas.len() != names.len() {
        return Err(NodeFault::Argument(at));
    }
    let results = eval_results(alloc, lambdas, names)?;
    Ok(Spec::Eval(EvalSpec { results, keep }))
}

impl<L: Drop> Props<L> for GroupBySpec {
    ghost sets = { set_by group_by_rows };

    fn set(mut self, alloc: Global, prop: Setting<L>) -> Result<GroupBySpec, NodeFault>
        ensures { Answers NodeFault.NoMemory result (set_by group_by_rows self prop) }
    {
        let _ = alloc;
        let Setting { name, args, at } = prop;
        if is_named(&name, "byMeasurement") {
            nothing(args, at)?;
            self.by_measurement = true;
            return Ok(self);
        }
        Err(NodeFault::Property(at))
    }
}

/// `groupBy(s..)` or `groupBy(*)`.
pub(crate) fn group_by_spec<L: Drop>(alloc: Global, node: Node<L>) -> Result<Spec<L>, NodeFault>
    ensures { Answers NodeFault.NoMemory result (group_by_spec node) }
{
    let Node {
        args,
        props,
        at,
        ..
    } = node;
    let first = GroupBySpec {
        dims: dimensions(alloc, args, at)?,
        by_measurement: false,
    };
    Ok(Spec::GroupBy(set_all(alloc, props, first)?))
}

/// `.level(s)`.
fn set_level<L: Drop>(
    alloc: Global,
    mut log: LogSpec,
    args: Args<L>,
    at: u32,
) -> Result<LogSpec, NodeFault>
    ensures { Answers NodeFault.NoMemory result (set_named log_rows log (codes "level") args at) }
{
    log.level = Some(one(alloc, args, at)?);
    Ok(log)
}

/// `.prefix(s)`.
fn set_prefix<L: Drop>(
    alloc: Global,
    mut log: LogSpec,
    args: Args<L>,
    at: u32,
) -> Result<LogSpec, NodeFault>
    ensures { Answers NodeFault.NoMemory result (set_named log_rows log (codes "prefix") args at) }
{
    log.prefix = Some(one(alloc, args, at)?);
    Ok(log)
}

impl<L: Drop> Props<L> for LogSpec {
    ghost sets = { set_by log_rows };

    fn set(self, alloc: Global, prop: Setting<L>) -> Result<LogSpec, NodeFault>
        ensures { Answers NodeFault.NoMemory result (set_by log_rows self prop) }
    {
        let Setting { name, args, at } = prop;
        if is_named(&name, "level") {
            return set_level(alloc, self, args, at);
        }
        if is_named(&name, "prefix") {
            return set_prefix(alloc, self, args, at);
        }
        Err(NodeFault::Property(at))
    }
}

/// `log()`.
pub(crate) fn log_spec<L: Drop>(alloc: Global, node: Node<L>) -> Result<Spec<L>, NodeFault>
    ensures { Answers NodeFault.NoMemory result (log_spec node) }
{
    let Node {
        args,
        props,
        at,
        ..
    } = node;
    nothing(args, at)?;
    let first = LogSpec {
        level: None,
        prefix: None,
    };
    Ok(Spec::Log(set_all(alloc, props, first)?))
}

/// `.field(s, x)`.
fn set_default_field<L: Drop>(
    alloc: Global,
    mut settings: ItemList<DefaultSetting>,
    args: Args<L>,
    at: u32,
) -> Result<ItemList<DefaultSetting>, NodeFault>
    ensures { Answers NodeFault.NoMemory result (set_named default_rows settings (codes "field") args at) }
{
    let (key, value) = pair(alloc, args, at)?;
    settings.push(DefaultSetting::Field(key, value))?;
    Ok(settings)
}

/// `.tag(s, s)`.
fn set_default_tag<L: Drop>(
    alloc: Global,
    mut settings: ItemList<DefaultSetting>,
    args: Args<L>,
    at: u32,
) -> Result<ItemList<DefaultSetting>, NodeFault>
    ensures { Answers NodeFault.NoMemory result (set_named default_rows settings (codes "tag") args at) }
{
    let (key, value) = pair(alloc, args, at)?;
    settings.push(DefaultSetting::Tag(key, value))?;
    Ok(settings)
}

impl<L: Drop> Props<L> for ItemList<DefaultSetting> {
    ghost sets = { set_by default_rows };

    fn set(self, alloc: Global, prop: Setting<L>) -> Result<ItemList<DefaultSetting>, NodeFault>
        ensures { Answers NodeFault.NoMemory result (set_by default_rows self prop) }
    {
        let Setting { name, args, at } = prop;
        if is_named(&name, "field") {
            return set_default_field(alloc, self, args, at);
        }
        if is_named(&name, "tag") {
            return set_default_tag(alloc, self, args, at);
        }
        Err(NodeFault::Property(at))
    }
}

/// `default()`.
pub(crate) fn default_spec<L: Drop>(alloc: Global, node: Node<L>) -> Result<Spec<L>, NodeFault>
    ensures { Answers NodeFault.NoMemory result (default_spec node) }
{
    let Node {
        args,
        props,
        at,
        ..
    } = node;
    nothing(args, at)?;
    Ok(Spec::Default(set_all(alloc, props, ItemList::new(alloc))?))
}

/// `.field(s)`.
fn set_deleted_field<L: Drop>(
    alloc: Global,
    mut settings: ItemList<DeleteSetting>,
    args: Args<L>,
    at: u32,
) -> Result<ItemList<DeleteSetting>, NodeFault>
    ensures { Answers NodeFault.NoMemory result (set_named delete_rows settings (codes "field") args at) }
{
    settings.push(DeleteSetting::Field(one(alloc, args, at)?))?;
    Ok(settings)
}

/// `.tag(s)`.
fn set_deleted_tag<L: Drop>(
    alloc: Global,
    mut settings: ItemList<DeleteSetting>,
    args: Args<L>,
    at: u32,
) -> Result<ItemList<DeleteSetting>, NodeFault>
    ensures { Answers NodeFault.NoMemory result (set_named delete_rows settings (codes "tag") args at) }
{
    settings.push(DeleteSetting::Tag(one(alloc, args, at)?))?;
    Ok(settings)
}

impl<L: Drop> Props<L> for ItemList<DeleteSetting> {
    ghost sets = { set_by delete_rows };

    fn set(self, alloc: Global, prop: Setting<L>) -> Result<ItemList<DeleteSetting>, NodeFault>
        ensures { Answers NodeFault.NoMemory result (set_by delete_rows self prop) }
    {
        let Setting { name, args, at } = prop;
        if is_named(&name, "field") {
            return set_deleted_field(alloc, self, args, at);
        }
        if is_named(&name, "tag") {
            return set_deleted_tag(alloc, self, args, at);
        }
        Err(NodeFault::Property(at))
    }
}

/// `delete()`.
pub(crate) fn delete_spec<L: Drop>(alloc: Global, node: Node<L>) -> Result<Spec<L>, NodeFault>
    ensures { Answers NodeFault.NoMemory result (delete_spec node) }
{
    let Node {
        args,
        props,
        at,
        ..
    } = node;
    nothing(args, at)?;
    Ok(Spec::Delete(set_all(alloc, props, ItemList::new(alloc))?))
}

/// `shift(d)`.
pub(crate) fn shift_spec<L: Drop>(alloc: Global, node: Node<L>) -> Result<Spec<L>, NodeFault>
    ensures { Answers NodeFault.NoMemory result (shift_spec node) }
{
    let Node {
        args,
        props,
        at,
        ..
    } = node;
    let nanos = one(alloc, args, at)?;
    no_props(&props)?;
    Ok(Spec::Shift(nanos))
}
