//! The replies where an engine refuses, or lines are faulty.

ghost use Rattle.std.specs.Prelude.{◌≡◌, ◌≢◌};
ghost use Rattle.kap_http.specs.Replies.{error_reply};
ghost use Rattle.line_points.specs.FaultText.{fault_line};
ghost use Rattle.tick_compile.specs.Texts.{text_of_fault};
ghost use Rattle.engine_asks.specs.Replies.{IsErrorText, reply_to_fault};
ghost use Rattle.reply_bodies.specs.Bodies.{IsDueOrShort};

use kap_base::{Bytes, NoMemory};
use kap_engine::EngineFault;
use kap_http::{Refusal, Reply, error_reply};
use line_points::{BodyFault, LineFault, body_text};
use reply_bodies::no_memory_reply;
use std::alloc::Global;
use tick_compile::{ScriptFault, script_text};

/// The reply 400 with this text, or that there was no memory for it.
#[tactic(auto, using(reply_bodies::proofs::TextLaws::refused_due))]
fn text_reply(alloc: Global, text: Result<Bytes, NoMemory>) -> Reply
    ensures { IsErrorText text result }
{
    match text {
        Ok(text) => error_reply(alloc, 400, text.as_slice()),
        Err(NoMemory) => no_memory_reply(alloc),
    }
}

/// The reply to a script that is none of a task.
#[tactic(auto, using(crate::proofs::FaultLaws::told))]
fn script_reply(alloc: Global, fault: ScriptFault) -> Reply
    ensures { IsDueOrShort (error_reply 400 (text_of_fault fault)) result }
{
    text_reply(alloc, script_text(alloc, &fault))
}

/// The reply to lines of which one is faulty.
#[tactic(auto, using(crate::proofs::FaultLaws::told))]
pub(crate) fn line_reply(alloc: Global, fault: BodyFault) -> Reply
    ensures told { fault.fault ≢ LineFault.NoMemory
        → IsDueOrShort (error_reply 400 (fault_line fault)) result }
    ensures short { fault.fault ≡ LineFault.NoMemory → result.status ≡ 503 }
{
    if fault.fault == LineFault::NoMemory {
        return no_memory_reply(alloc);
    }
    text_reply(alloc, body_text(alloc, &fault))
}

/// The reply where the engine refuses.
#[tactic(auto, using(reply_bodies::proofs::TextLaws::refused_due))]
pub(crate) fn fault_reply(alloc: Global, fault: EngineFault) -> Reply
    ensures { IsDueOrShort (reply_to_fault fault) result }
{
    match fault {
        EngineFault::Script(fault) => script_reply(alloc, fault),
        EngineFault::NoTask => Refusal::NoTask.reply(alloc),
        EngineFault::Exists => Refusal::Exists.reply(alloc),
        EngineFault::TooManyTasks => Refusal::TooManyTasks.reply(alloc),
        EngineFault::NotStore { .. } | EngineFault::DiskFault => Refusal::Store.reply(alloc),
        EngineFault::NoMemory => no_memory_reply(alloc),
    }
}
