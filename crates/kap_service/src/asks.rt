//! Which asks are for changes, and which are about topics.

ghost use Rattle.std.specs.Prelude.{◌≡◌, ◌&&◌};
ghost use Rattle.reply_bodies.specs.Asks.{is_changing, is_done};
ghost use Rattle.kap_service.specs.Asks.{is_topic};

use kap_http::{Ask, TaskAct};

/// Whether an ask is about topics.
pub(crate) fn is_topic(ask: &Ask) -> bool
    ensures { result ≡ is_topic ask.now }
{
    match ask {
        Ask::Topics | Ask::Topic(_) => true,
        _ => false,
    }
}

/// Whether an ask is for a change.
fn is_changing(ask: &Ask) -> bool
    ensures { result ≡ is_changing ask.now }
{
    match ask {
        Ask::Write(_) | Ask::Define(_) => true,
        Ask::Task(task) => task.act != TaskAct::Show,
        _ => false,
    }
}

/// Whether this status says that a change is done that was asked for.
pub(crate) fn changes(ask: &Ask, status: u16) -> bool
    ensures { result ≡ (is_changing ask.now && is_done status) }
{
    is_changing(ask) && (status == 200 || status == 204)
}
