//! `window`.

ghost use Rattle.std.specs.Prelude.{◌≡◌, codes};
ghost use Rattle.kap_base.specs.Words.{Answers};
ghost use Rattle.tick_compile.specs.Rows.{set_by, set_named};
ghost use Rattle.tick_compile.specs.Windows.{counted_form, is_counted, is_timed, no_window, timed_form, window_form, window_rows, window_spec};

use crate::given::{Args, Node, Setting};
use crate::names::is_named;
use crate::node_fault::NodeFault;
use crate::props::{Props, set_all};
use crate::readers::{nothing, one};
use std::alloc::Global;
use task_graph::{Count, Period, Span, Spec, WindowSpec};

/// The properties of `window`.
#[derive(Drop)]
pub(crate) struct WindowProps {
    pub(crate) period: Option<Period>,
    pub(crate) every: Option<Span>,
    pub(crate) align: bool,
    pub(crate) fill_period: bool,
    pub(crate) period_count: Option<Count>,
    pub(crate) every_count: Option<Count>,
}

/// `.period(d)`.
fn set_period<L: Drop>(
    alloc: Global,
    mut window: WindowProps,
    args: Args<L>,
    at: u32,
) -> Result<WindowProps, NodeFault>
    ensures { Answers NodeFault.NoMemory result (set_named window_rows window (codes "period") args at) }
{
    window.period = Some(one(alloc, args, at)?);
    Ok(window)
}

/// `.every(d)`.
fn set_every<L: Drop>(
    alloc: Global,
    mut window: WindowProps,
    args: Args<L>,
    at: u32,
) -> Result<WindowProps, NodeFault>
    ensures { Answers NodeFault.NoMemory result (set_named window_rows window (codes "every") args at) }
{
    window.every = Some(one(alloc, args, at)?);
    Ok(window)
}

/// `.align()`.
fn set_align<L: Drop>(
    mut window: WindowProps,
    args: Args<L>,
    at: u32,
) -> Result<WindowProps, NodeFault>
    ensures { Answers NodeFault.NoMemory result (set_named window_rows window (codes "align") args at) }
{
    nothing(args, at)?;
    window.align = true;
    Ok(window)
}

/// `.fillPeriod()`.
fn set_fill_period<L: Drop>(
    mut window: WindowProps,
    args: Args<L>,
    at: u32,
) -> Result<WindowProps, NodeFault>
    ensures { Answers NodeFault.NoMemory result (set_named window_rows window (codes "fillPeriod") args at) }
{
    nothing(args, at)?;
    window.fill_period = true;
    Ok(window)
}

/// `.periodCount(n)`.
fn set_period_count<L: Drop>(
    alloc: Global,
    mut window: WindowProps,
    args: Args<L>,
    at: u32,
) -> Result<WindowProps, NodeFault>
    ensures { Answers NodeFault.NoMemory result (set_named window_rows window (codes "periodCount") args at) }
{
    window.period_count = Some(one(alloc, args, at)?);
    Ok(window)
}

/// `.everyCount(n)`.
fn set_every_count<L: Drop>(
    alloc: Global,
    mut window: WindowProps,
    args: Args<L>,
    at: u32,
) -> Result<WindowProps, NodeFault>
    ensures { Answers NodeFault.NoMemory result (set_named window_rows window (codes "everyCount") args at) }
{
    window.every_count = Some(one(alloc, args, at)?);
    Ok(window)
}

impl<L: Drop> Props<L> for WindowProps {
    ghost sets = { set_by window_rows };

    fn set(self, alloc: Global, prop: Setting<L>) -> Result<WindowProps, NodeFault>
        ensures { Answers NodeFault.NoMemory result (set_by window_rows self prop) }
    {
        let Setting { name, args, at } = prop;
        if is_named(&name, "period") {
            return set_period(alloc, self, args, at);
        }
        if is_named(&name, "every") {
            return set_every(alloc, self, args, at);
        }
        if is_named(&name, "align") {
            return set_align(self, args, at);
        }
        if is_named(&name, "fillPeriod") {
            return set_fill_period(self, args, at);
        }
        if is_named(&name, "periodCount") {
            return set_period_count(alloc, self, args, at);
        }
        if is_named(&name, "everyCount") {
            return set_every_count(alloc, self, args, at);
        }
        Err(NodeFault::Property(at))
    }
}

/// No property of `window`.
fn no_window() -> WindowProps
    ensures { result ≡ no_window }
{
    WindowProps {
        period: None,
        every: None,
        align: false,
        fill_period: false,
        period_count: None,
        every_count: None,
    }
}

/// Whether a property of the form by time is set.
fn is_timed(window: &WindowProps) -> bool
    ensures { result ≡ is_timed window.now }
{
    window.period.is_some() || window.every.is_some() || window.align
}

/// Whether a property of the form by the number of points is set.
fn is_counted(window: &WindowProps) -> bool
    ensures { result ≡ is_counted window.now }
{
    window.period_count.is_some() || window.every_count.is_some()
}

/// The form by time, where its period is set.
fn timed_form(window: &WindowProps) -> Option<WindowSpec>
    ensures { result ≡ timed_form window.now }
{
    Some(WindowSpec::Timed {
        period: window.period?,
        every: window.every.unwrap_or(Span::zero()),
        align: window.align,
        fill_period: window.fill_period,
    })
}

/// The form by the number of points, where its period is set.
fn counted_form(window: &WindowProps) -> Option<WindowSpec>
    ensures { result ≡ counted_form window.now }
{
    Some(WindowSpec::Counted {
        period_count: window.period_count?,
        every_count: window.every_count.unwrap_or(Count::one()),
        fill_period: window.fill_period,
    })
}

/// The window of these properties, where they are of one form.
fn window_form(window: &WindowProps) -> Option<WindowSpec>
    ensures { result ≡ window_form window.now }
{
    if !is_counted(window) {
        return timed_form(window);
    }
    if is_timed(window) {
        return None;
    }
    counted_form(window)
}

/// `window()`.
pub(crate) fn window_spec<L: Drop>(alloc: Global, node: Node<L>) -> Result<Spec<L>, NodeFault>
    ensures { Answers NodeFault.NoMemory result (window_spec node) }
{
    let Node {
        args,
        props,
        at,
        ..
    } = node;
    nothing(args, at)?;
    let window = set_all(alloc, props, no_window())?;
    match window_form(&window) {
        Some(window) => Ok(Spec::Window(window)),
        None => Err(NodeFault::Argument(at)),
    }
}
