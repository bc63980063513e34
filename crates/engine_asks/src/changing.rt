//! A task is shown, enabled, disabled or deleted.

ghost use Rattle.std.specs.Prelude.{◌≡◌, ◌⊎◌, ◌≤◌, false, IfErr, IfSome, IsTrue, List, OnOk, Some};
ghost use Rattle.kap_base.specs.Words.{HasRisen};
ghost use Rattle.kap_io.specs.Moments.{Moments};
ghost use Rattle.lambda_types.specs.Builds.{AtMostOneMore};
ghost use Rattle.store_records.specs.Held.{task_of};
ghost use Rattle.store_records.specs.declared.rec.Rec.{Rec};
ghost use Rattle.engine_store.specs.Asking.{IsScript};
ghost use Rattle.engine_store.specs.Faults.{EngineCause};
ghost use Rattle.kap_engine.specs.Changing.{IsWhyNoneEnabled};
ghost use Rattle.kap_engine.specs.Engines.{IsEngine};
ghost use Rattle.reply_bodies.specs.Asks.{IsFailed, is_changing_act, is_done};
ghost use Rattle.reply_bodies.specs.Bodies.{IsDueOrShort};
ghost use Rattle.engine_asks.specs.Nexts.{NextOfAct, before_or_acted};
ghost use Rattle.engine_asks.specs.Replies.{IsDueOrFailed, reply_to_act};

use crate::faults::fault_reply;
use crate::tasks::task_of;
use kap_base::Text;
use kap_engine::{Engine, EngineFault};
use kap_http::{Refusal, Reply, TaskAct, TaskAsk};
use kap_io::Disk;
use lambda_types::Patterns;
use net_run::NumberingNode;
use node_set::ScriptNode;
use reply_bodies::{done_reply, task_reply};
use std::alloc::Global;
use store_records::StoredTask;
use tick_compile::scripts_have_one_answer;

/// The reply where this is done with a task that is there.
fn act_reply(alloc: Global, act: TaskAct, task: &StoredTask) -> Reply
    ensures { IsDueOrShort (reply_to_act act (Some task.now)) result }
{
    match act {
        TaskAct::Show => task_reply(alloc, &task.id, &task.script, task.enabled),
        TaskAct::Enable => task_reply(alloc, &task.id, &task.script, true),
        TaskAct::Disable => task_reply(alloc, &task.id, &task.script, false),
        TaskAct::Delete => done_reply(alloc),
    }
}

/// The reply about the task with this id.
#[tactic(auto, using(reply_bodies::proofs::TextLaws::refused_due))]
fn reply_of(alloc: Global, act: TaskAct, tasks: &[StoredTask], id: &Text) -> Reply
    ensures { IsDueOrShort (reply_to_act act (task_of id.now tasks.now)) result }
{
    match task_of(tasks, id) {
        Some(task) => act_reply(alloc, act, task),
        None => Refusal::NoTask.reply(alloc),
    }
}

/// Whether a reply says that what was asked is done.
fn is_done(reply: &Reply) -> bool
    ensures { result ≡ is_done reply.now.status }
{
    reply.status == 200 || reply.status == 204
}

/// Does this with the task of the engine that has this id.
fn perform<D: Disk, P: Patterns, N: ScriptNode + NumberingNode + Send>(
    alloc: Global,
    engine: &mut Engine<N>,
    disk: &mut D,
    pats: &mut P,
    act: TaskAct,
    id: &Text,
) -> Result<(), EngineFault>
    requires unspent { engine.old.spent ≡ false }
    ensures next { IsTrue D.tells → (rs : List Rec)
        → IsEngine N.Node N.planned rs (D.seen disk.old) (D.may_leave disk.old) engine.old
        → OnOk result (NextOfAct N.Node N.planned rs engine.old.stored
        (D.seen disk.new) (D.may_leave disk.new) engine.new id.now act) }
    ensures any_moment { IsTrue D.tells → (rs : List Rec)
        → IsEngine N.Node N.planned rs (D.seen disk.old) (D.may_leave disk.old) engine.old
        → Moments D.moment D.may_leave D.left_since disk.old disk.new
        (before_or_acted N.Node N.planned rs id.now act) }
    ensures unspent { OnOk result (engine.new.spent ≡ false) }
    ensures changing { IfErr result (λ f. IsTrue (is_changing_act act)) }
    ensures why { IfErr result
        (IsWhyNoneEnabled (P.refusals pats.old) (P.refusals pats.new) (P.refused pats.new)
        engine.old.store.log.part id.now engine.old.store.kept.tasks) }
    ensures cause { EngineCause (D.faults disk.old) (D.faults disk.new) result }
    ensures counted { AtMostOneMore (P.refusals pats.old) (P.refusals pats.new) }
{
    match act {
        TaskAct::Show => Ok(()),
        TaskAct::Enable => engine.enable(alloc, disk, id, pats),
        TaskAct::Disable => engine.disable(alloc, disk, id),
        TaskAct::Delete => engine.delete(alloc, disk, id),
    }
}

/// Does what an ask wants with a task: 200 with the task as it is from now on, or 204 where it is deleted; or
/// 404 where no task has the id, where nothing has changed. The reply is made first, so that where there is
/// no memory for it nothing has changed either.
pub(crate) fn act<D: Disk, P: Patterns, N: ScriptNode + NumberingNode + Send>(
    alloc: Global,
    engine: &mut Engine<N>,
    disk: &mut D,
    pats: &mut P,
    ask: &TaskAsk,
) -> Reply
    requires unspent { engine.old.spent ≡ false }
    ensures reply { IsDueOrFailed
        (reply_to_act ask.now.act (task_of ask.now.id engine.old.store.kept.tasks)) result }
    ensures instead { result.status ≡ 500 → IsTrue (is_changing_act ask.now.act)
        × IsTrue (is_done
        (reply_to_act ask.now.act (task_of ask.now.id engine.old.store.kept.tasks)).status) }
    ensures next { IsTrue D.tells → (rs : List Rec)
        → IsEngine N.Node N.planned rs (D.seen disk.old) (D.may_leave disk.old) engine.old
        → IsTrue (is_done result.status) → NextOfAct N.Node N.planned rs engine.old.stored
        (D.seen disk.new) (D.may_leave disk.new) engine.new ask.now.id ask.now.act }
    ensures still { is_done result.status ≡ false → (IsFailed result.status → ⊥)
        → (engine.new ≡ engine.old) × (disk.new ≡ disk.old) }
    ensures any_moment { IsTrue D.tells → (rs : List Rec)
        → IsEngine N.Node N.planned rs (D.seen disk.old) (D.may_leave disk.old) engine.old
        → Moments D.moment D.may_leave D.left_since disk.old disk.new
        (before_or_acted N.Node N.planned rs ask.now.id ask.now.act) }
    ensures usable { (IsFailed result.status → ⊥) → engine.new.spent ≡ false }
    ensures any_cause { IfSome (task_of ask.now.id engine.old.store.kept.tasks)
        (λ task. IsScript task.script) → result.status ≡ 500
        → HasRisen (D.faults disk.old) (D.faults disk.new)
        ⊎ HasRisen (P.refusals pats.old) (P.refusals pats.new) }
    ensures later { D.faults disk.old ≤ D.faults disk.new }
    ensures counted { AtMostOneMore (P.refusals pats.old) (P.refusals pats.new) }
{
    scripts_have_one_answer();
    let reply = reply_of(alloc, ask.act, engine.store().tasks(), &ask.id);
    if !is_done(&reply) {
        return reply;
    }
    match perform(alloc, engine, disk, pats, ask.act, &ask.id) {
        Ok(()) => reply,
        Err(fault) => fault_reply(alloc, fault),
    }
}
