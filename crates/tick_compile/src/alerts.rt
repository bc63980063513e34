//! `alert`.

ghost use Rattle.std.specs.Prelude.{◌≡◌, codes};
ghost use Rattle.kap_base.specs.Words.{Answers};
ghost use Rattle.tick_compile.specs.Alerts.{alert_sets, alert_spec, is_handler, level_rows, no_alert, no_conditions, other_rows, reset_rows};
ghost use Rattle.tick_compile.specs.Rows.{has_row, set_by, set_named};

use crate::given::{Args, Node, Setting};
use crate::names::is_named;
use crate::node_fault::NodeFault;
use crate::props::{Props, set_all};
use crate::readers::{lambda, nothing, one};
use crate::templates::template;
use kap_base::Text;
use std::alloc::Global;
use task_graph::{AlertSpec, Conditions, Spec};

/// Whether a property is a handler that an alert has in Kapacitor, and not here.
fn is_handler(name: &Text) -> bool
    ensures { result ≡ is_handler name.now }
{
    is_named(name, "email")
        || is_named(name, "slack")
        || is_named(name, "pagerDuty")
        || is_named(name, "post")
        || is_named(name, "tcp")
        || is_named(name, "exec")
        || is_named(name, "telegram")
        || is_named(name, "victorOps")
        || is_named(name, "opsGenie")
        || is_named(name, "hipChat")
        || is_named(name, "sensu")
        || is_named(name, "snmpTrap")
}

/// Whether a property is the condition of a level.
fn is_level<L>(prop: &Setting<L>) -> bool
    ensures { result ≡ has_row (level_rows {L = L}) prop.now.name }
{
    is_named(&prop.name, "info") || is_named(&prop.name, "warn") || is_named(&prop.name, "crit")
}

/// Whether a property is the condition of leaving a level.
fn is_reset<L>(prop: &Setting<L>) -> bool
    ensures { result ≡ has_row (reset_rows {L = L}) prop.now.name }
{
    is_named(&prop.name, "infoReset")
        || is_named(&prop.name, "warnReset")
        || is_named(&prop.name, "critReset")
}

/// `.info(l)`.
fn set_info<L: Drop>(
    mut alert: AlertSpec<L>,
    args: Args<L>,
    at: u32,
) -> Result<AlertSpec<L>, NodeFault>
    ensures { Answers NodeFault.NoMemory result (set_named level_rows alert (codes "info") args at) }
{
    alert.levels.info = Some(lambda(args, at)?);
    Ok(alert)
}

/// `.warn(l)`.
fn set_warn<L: Drop>(
    mut alert: AlertSpec<L>,
    args: Args<L>,
    at: u32,
) -> Result<AlertSpec<L>, NodeFault>
    ensures { Answers NodeFault.NoMemory result (set_named level_rows alert (codes "warn") args at) }
{
    alert.levels.warn = Some(lambda(args, at)?);
    Ok(alert)
}

/// `.crit(l)`.
fn set_crit<L: Drop>(
    mut alert: AlertSpec<L>,
    args: Args<L>,
    at: u32,
) -> Result<AlertSpec<L>, NodeFault>
    ensures { Answers NodeFault.NoMemory result (set_named level_rows alert (codes "crit") args at) }
{
    alert.levels.crit = Some(lambda(args, at)?);
    Ok(alert)
}

/// The condition of a level more.
fn set_level<L: Drop>(alert: AlertSpec<L>, prop: Setting<L>) -> Result<AlertSpec<L>, NodeFault>
    ensures { Answers NodeFault.NoMemory result (set_by level_rows alert prop) }
{
    let Setting { name, args, at } = prop;
    if is_named(&name, "info") {
        return set_info(alert, args, at);
    }
    if is_named(&name, "warn") {
        return set_warn(alert, args, at);
    }
    if is_named(&name, "crit") {
        return set_crit(alert, args, at);
    }
    Err(NodeFault::Property(at))
}

/// `.infoReset(l)`.
fn set_info_reset<L: Drop>(
    mut alert: AlertSpec<L>,
    args: Args<L>,
    at: u32,
) -> Result<AlertSpec<L>, NodeFault>
    ensures { Answers NodeFault.NoMemory result (set_named reset_rows alert (codes "infoReset") args at) }
{
    alert.resets.info = Some(lambda(args, at)?);
    Ok(alert)
}

/// `.warnReset(l)`.
fn set_warn_reset<L: Drop>(
    mut alert: AlertSpec<L>,
    args: Args<L>,
    at: u32,
) -> Result<AlertSpec<L>, NodeFault>
    ensures { Answers NodeFault.NoMemory result (set_named reset_rows alert (codes "warnReset") args at) }
{
    alert.resets.warn = Some(lambda(args, at)?);
    Ok(alert)
}

/// `.critReset(l)`.
fn set_crit_reset<L: Drop>(
    mut alert: AlertSpec<L>,
    args: Args<L>,
    at: u32,
) -> Result<AlertSpec<L>, NodeFault>
    ensures { Answers NodeFault.NoMemory result (set_named reset_rows alert (codes "critReset") args at) }
{
    alert.resets.crit = Some(lambda(args, at)?);
    Ok(alert)
}

/// The condition of leaving a level more.
fn set_reset<L: Drop>(alert: AlertSpec<L>, prop: Setting<L>) -> Result<AlertSpec<L>, NodeFault>
    ensures { Answers NodeFault.NoMemory result (set_by reset_rows alert prop) }
{
    let Setting { name, args, at } = prop;
    if is_named(&name, "infoReset") {
        return set_info_reset(alert, args, at);
    }
    if is_named(&name, "warnReset") {
        return set_warn_reset(alert, args, at);
    }
    if is_named(&name, "critReset") {
        return set_crit_reset(alert, args, at);
    }
    Err(NodeFault::Property(at))
}

/// `.id(s)`.
fn set_id<L: Drop>(
    alloc: Global,
    mut alert: AlertSpec<L>,
    args: Args<L>,
    at: u32,
) -> Result<AlertSpec<L>, NodeFault>
    ensures { Answers NodeFault.NoMemory result (set_named other_rows alert (codes "id") args at) }
{
    alert.id = Some(template(alloc, true, args, at)?);
    Ok(alert)
}

/// `.message(s)`.
fn set_message<L: Drop>(
    alloc: Global,
    mut alert: AlertSpec<L>,
    args: Args<L>,
    at: u32,
) -> Result<AlertSpec<L>, NodeFault>
    ensures { Answers NodeFault.NoMemory result (set_named other_rows alert (codes "message") args at) }
{
    alert.message = Some(template(alloc, false, args, at)?);
    Ok(alert)
}

/// `.topic(s)`.
fn set_topic<L: Drop>(
    alloc: Global,
    mut alert: AlertSpec<L>,
    args: Args<L>,
    at: u32,
) -> Result<AlertSpec<L>, NodeFault>
    ensures { Answers NodeFault.NoMemory result (set_named other_rows alert (codes "topic") args at) }
{
    alert.topic = Some(one(alloc, args, at)?);
    Ok(alert)
}

/// `.log(s)`.
fn set_log<L: Drop>(
    alloc: Global,
    mut alert: AlertSpec<L>,
    args: Args<L>,
    at: u32,
) -> Result<AlertSpec<L>, NodeFault>
    ensures { Answers NodeFault.NoMemory result (set_named other_rows alert (codes "log") args at) }
{
    alert.path = Some(one(alloc, args, at)?);
    Ok(alert)
}

/// `.stateChangesOnly()`.
fn set_state_changes_only<L: Drop>(
    mut alert: AlertSpec<L>,
    args: Args<L>,
    at: u32,
) -> Result<AlertSpec<L>, NodeFault>
    ensures { Answers NodeFault.NoMemory result
        (set_named other_rows alert (codes "stateChangesOnly") args at) }
{
    nothing(args, at)?;
    alert.state_changes_only = true;
    Ok(alert)
}

/// `.noRecoveries()`.
fn set_no_recoveries<L: Drop>(
    mut alert: AlertSpec<L>,
    args: Args<L>,
    at: u32,
) -> Result<AlertSpec<L>, NodeFault>
    ensures { Answers NodeFault.NoMemory result (set_named other_rows alert (codes "noRecoveries") args at) }
{
    nothing(args, at)?;
    alert.no_recoveries = true;
    Ok(alert)
}

/// One more of the other properties.
fn set_other<L: Drop>(
    alloc: Global,
    alert: AlertSpec<L>,
    prop: Setting<L>,
) -> Result<AlertSpec<L>, NodeFault>
    ensures { Answers NodeFault.NoMemory result (set_by other_rows alert prop) }
{
    let Setting { name, args, at } = prop;
    if is_named(&name, "id") {
        return set_id(alloc, alert, args, at);
    }
    if is_named(&name, "message") {
        return set_message(alloc, alert, args, at);
    }
    if is_named(&name, "topic") {
        return set_topic(alloc, alert, args, at);
    }
    if is_named(&name, "log") {
        return set_log(alloc, alert, args, at);
    }
    if is_named(&name, "stateChangesOnly") {
        return set_state_changes_only(alert, args, at);
    }
    if is_named(&name, "noRecoveries") {
        return set_no_recoveries(alert, args, at);
    }
    Err(NodeFault::Property(at))
}

impl<L: Drop> Props<L> for AlertSpec<L> {
    ghost sets = { alert_sets };

    #[tactic(auto, using(crate::proofs::RowLaws::set_by_front, crate::proofs::RowLaws::set_by_behind))]
    fn set(self, alloc: Global, prop: Setting<L>) -> Result<AlertSpec<L>, NodeFault>
        ensures { Answers NodeFault.NoMemory result (alert_sets self prop) }
    {
        if is_handler(&prop.name) {
            return Err(NodeFault::Handler(prop.at));
        }
        if is_level(&prop) {
            return set_level(self, prop);
        }
        if is_reset(&prop) {
            return set_reset(self, prop);
        }
        set_other(alloc, self, prop)
    }
}

/// No condition.
fn no_conditions<L>() -> Conditions<L>
    ensures { result ≡ no_conditions }
{
    Conditions {
        info: None,
        warn: None,
        crit: None,
    }
}

/// No property of `alert`.
fn no_alert<L>() -> AlertSpec<L>
    ensures { result ≡ no_alert }
{
    AlertSpec {
        levels: no_conditions(),
        resets: no_conditions(),
        id: None,
        message: None,
        topic: None,
        path: None,
        state_changes_only: false,
        no_recoveries: false,
    }
}

/// `alert()`.
pub(crate) fn alert_spec<L: Drop>(alloc: Global, node: Node<L>) -> Result<Spec<L>, NodeFault>
    ensures { Answers NodeFault.NoMemory result (alert_spec node) }
{
    let Node {
        args,
        props,
        at,
        ..
    } = node;
    nothing(args, at)?;
    Ok(Spec::Alert(set_all(alloc, props, no_alert())?))
}
