//! The kinds of nodes.

ghost use Rattle.std.specs.Prelude.{◌≡◌};
ghost use Rattle.tick_compile.specs.Kinds.{family_named, kind_named};

use crate::names::is_named;
use crate::selects::{Rank, rank_named, select_named};
use crate::states::{StateKind, state_named};
use kap_base::Text;
use task_graph::Select;

/// A kind of node that a script can make.
#[derive(Clone, Copy)]
pub(crate) enum Kind {
    From,
    Where,
    Eval,
    GroupBy,
    Log,
    Default,
    Delete,
    Shift,
    Sample,
    Window,
    Alert,
    Union,
    Join,
    State(StateKind),
    Select(Select),
    Rank(Rank),
}

/// The kind of this name, where it is one of many alike.
fn family_named(name: &Text) -> Option<Kind>
    ensures { result ≡ family_named name.now }
{
    if let Some(kind) = state_named(name) {
        return Some(Kind::State(kind));
    }
    if let Some(select) = select_named(name) {
        return Some(Kind::Select(select));
    }
    match rank_named(name) {
        Some(rank) => Some(Kind::Rank(rank)),
        None => None,
    }
}

/// The kind of this name.
pub(crate) fn kind_named(name: &Text) -> Option<Kind>
    ensures { result ≡ kind_named name.now }
{
    if is_named(name, "from") {
        Some(Kind::From)
    } else if is_named(name, "where") {
        Some(Kind::Where)
    } else if is_named(name, "eval") {
        Some(Kind::Eval)
    } else if is_named(name, "groupBy") {
        Some(Kind::GroupBy)
    } else if is_named(name, "log") {
        Some(Kind::Log)
    } else if is_named(name, "default") {
        Some(Kind::Default)
    } else if is_named(name, "delete") {
        Some(Kind::Delete)
    } else if is_named(name, "shift") {
        Some(Kind::Shift)
    } else if is_named(name, "sample") {
        Some(Kind::Sample)
    } else if is_named(name, "window") {
        Some(Kind::Window)
    } else if is_named(name, "alert") {
        Some(Kind::Alert)
    } else if is_named(name, "union") {
        Some(Kind::Union)
    } else if is_named(name, "join") {
        Some(Kind::Join)
    } else {
        family_named(name)
    }
}
