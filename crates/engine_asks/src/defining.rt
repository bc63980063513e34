//! A task is defined.

ghost use Rattle.std.specs.Prelude.{◌≡◌, ◌⊎◌, ◌≤◌, false, IsTrue, List};
ghost use Rattle.kap_base.specs.Words.{HasRisen};
ghost use Rattle.kap_io.specs.Moments.{Moments};
ghost use Rattle.lambda_types.specs.Builds.{AtMostOneMore};
ghost use Rattle.store_records.specs.declared.rec.Rec.{Rec};
ghost use Rattle.kap_engine.specs.Changing.{CanBeDefined, stands_full_before_or_after};
ghost use Rattle.kap_engine.specs.Engines.{IsEngine};
ghost use Rattle.reply_bodies.specs.Asks.{IsFailed, is_done};
ghost use Rattle.engine_asks.specs.Nexts.{HasRecord, definition};
ghost use Rattle.engine_asks.specs.Replies.{IsReplyToDefinition};

use crate::faults::fault_reply;
use kap_engine::Engine;
use kap_http::{DefineAsk, Reply};
use kap_io::Disk;
use lambda_types::Patterns;
use net_run::NumberingNode;
use node_set::ScriptNode;
use reply_bodies::task_reply;
use std::alloc::Global;

/// Defines the task that an ask has, enabled or not, which is one change: 200 with the task; or 400 with the
/// first fault of its script, else 409 where a task has the id, else 409 where there are as many as may be,
/// where nothing has changed.
pub(crate) fn define<D: Disk, P: Patterns, N: ScriptNode + NumberingNode + Send>(
    alloc: Global,
    engine: &mut Engine<N>,
    disk: &mut D,
    pats: &mut P,
    ask: &DefineAsk,
) -> Reply
    requires unspent { engine.old.spent ≡ false }
    ensures reply { IsReplyToDefinition (P.refusals pats.old) (P.refusals pats.new)
        (P.refused pats.new) engine.old.store.kept.tasks ask.now result ⊎ IsFailed result.status }
    ensures instead { result.status ≡ 500
        → CanBeDefined engine.old.store.kept.tasks ask.now.id ask.now.script }
    ensures next { IsTrue D.tells → (rs : List Rec)
        → IsEngine N.Node N.planned rs (D.seen disk.old) (D.may_leave disk.old) engine.old
        → IsTrue (is_done result.status) → HasRecord N.Node N.planned rs (definition ask.now)
        (D.seen disk.new) (D.may_leave disk.new) engine.new }
    ensures still { is_done result.status ≡ false → (IsFailed result.status → ⊥)
        → (engine.new ≡ engine.old) × (disk.new ≡ disk.old) }
    ensures any_moment { IsTrue D.tells → (rs : List Rec)
        → IsEngine N.Node N.planned rs (D.seen disk.old) (D.may_leave disk.old) engine.old
        → Moments D.moment D.may_leave D.left_since disk.old disk.new
        (stands_full_before_or_after N.Node N.planned rs (definition ask.now)) }
    ensures usable { (IsFailed result.status → ⊥) → engine.new.spent ≡ false }
    ensures cause { result.status ≡ 500 → HasRisen (D.faults disk.old) (D.faults disk.new) }
    ensures later { D.faults disk.old ≤ D.faults disk.new }
    ensures counted { AtMostOneMore (P.refusals pats.old) (P.refusals pats.new) }
{
    match engine.define(alloc, disk, &ask.id, &ask.script, ask.enabled, pats) {
        Ok(()) => task_reply(alloc, &ask.id, &ask.script, ask.enabled),
        Err(fault) => fault_reply(alloc, fault),
    }
}
