//! Tasks in replies.

ghost use Rattle.std.specs.Prelude.{◌≡◌, ◌∷◌, ◌++◌, [], codes, map, IfOk, OnOk};
ghost use Rattle.json.specs.Token.{end_object, key, string};
ghost use Rattle.json.specs.Tree.{items_tokens, json_tokens};
ghost use Rattle.serde_json.specs.View.{items_of};
ghost use Rattle.serde_json.specs.Written.{items_outline, outline};
ghost use Rattle.reply_bodies.specs.Bodies.{IsDueOrShort, given_reply, tasks_reply};
ghost use Rattle.reply_bodies.specs.Texts.{status_word, task_text, tasks_text};
ghost use Rattle.reply_bodies.specs.Values.{stored_value, worded_value};

use crate::replies::{body_of, given_reply, new_body, put_text};
use json::Writer;
use kap_base::{Bytes, NoMemory, Text};
use kap_http::Reply;
use std::alloc::Global;
use store_records::StoredTask;

/// Whether a task runs.
fn status_word(enabled: bool) -> &'static str
    ensures { result.now ≡ status_word enabled }
{
    if enabled { "enabled" } else { "disabled" }
}

/// Puts the members that say whether a task runs, by this word, and of which kind it is; and its end.
fn put_status(writer: &mut Writer, word: &str) -> Result<(), NoMemory>
    ensures tokens { OnOk result (writer.new.tokens ≡ writer.old.tokens
        ++ key (codes "status") ∷ string word.now
        ∷ key (codes "type") ∷ string (codes "stream") ∷ end_object ∷ []) }
    ensures before { writer.new.before ≡ writer.old.before }
{
    put_text(writer, "status", word)?;
    put_text(writer, "type", "stream")?;
    writer.end_object()?;
    Ok(())
}

/// Puts the value of a task, of which this word says whether it runs.
fn put_task(writer: &mut Writer, id: &Text, script: &Text, word: &str) -> Result<(), NoMemory>
    ensures tokens { OnOk result (writer.new.tokens ≡ writer.old.tokens
        ++ json_tokens (outline (worded_value id.now script.now word.now))) }
    ensures before { writer.new.before ≡ writer.old.before }
{
    writer.begin_object()?;
    put_text(writer, "id", id.as_str())?;
    put_text(writer, "script", script.as_str())?;
    put_status(writer, word)
}

/// Puts the values of tasks, and the end of a list.
fn put_tasks(writer: &mut Writer, tasks: &[StoredTask]) -> Result<(), NoMemory>
    ensures tokens { OnOk result (writer.new.tokens ≡ writer.old.tokens
        ++ items_tokens (items_outline (items_of (map stored_value tasks.now)))) }
    ensures before { writer.new.before ≡ writer.old.before }
{
    'putting: for task in tasks {
        put_task(writer, &task.id, &task.script, status_word(task.enabled))?;
    }
    writer.end_array()?;
    Ok(())
}

/// The text of a task.
#[tactic(auto, using(crate::proofs::TextLaws::task_printed))]
fn task_body(alloc: Global, id: &Text, script: &Text, enabled: bool) -> Result<Bytes, NoMemory>
    ensures { IfOk result (λ body. body ≡ task_text id.now script.now enabled) }
{
    let mut writer = new_body(alloc);
    put_task(&mut writer, id, script, status_word(enabled))?;
    Ok(body_of(writer))
}

/// The text of the tasks of a store.
#[tactic(auto, using(crate::proofs::TextLaws::tasks_printed))]
fn tasks_body(alloc: Global, tasks: &[StoredTask]) -> Result<Bytes, NoMemory>
    ensures { IfOk result (λ body. body ≡ tasks_text tasks.now) }
{
    let mut writer = new_body(alloc);
    writer.begin_object()?;
    writer.key("tasks")?;
    writer.begin_array()?;
    put_tasks(&mut writer, tasks)?;
    writer.end_object()?;
    Ok(body_of(writer))
}

/// The reply that gives a task: its id, its script, and whether it is enabled; or 503 where memory ran out.
#[tactic(auto, using(crate::proofs::TextLaws::given_due))]
pub fn task_reply(alloc: Global, id: &Text, script: &Text, enabled: bool) -> Reply
    ensures { IsDueOrShort (given_reply (task_text id.now script.now enabled)) result }
{
    given_reply(alloc, task_body(alloc, id, script, enabled))
}

/// The reply that gives the tasks of a store, in its order, which is the byte order of their ids; or 503 where
/// memory ran out.
#[tactic(auto, using(crate::proofs::TextLaws::given_due))]
pub fn tasks_reply(alloc: Global, tasks: &[StoredTask]) -> Reply
    ensures { IsDueOrShort (tasks_reply tasks.now) result }
{
    given_reply(alloc, tasks_body(alloc, tasks))
}
