//! What the JSON bodies of requests say.

ghost use Rattle.std.specs.Prelude.{◌≡◌, ◌≢◌, IfErr, IfOk, None, Some, codes, option_map};
ghost use Rattle.serde_json.specs.Find.{as_array, as_str, get};
ghost use Rattle.serde_json.specs.View.{view};
ghost use Rattle.kap_base.specs.Words.{Answers};
ghost use Rattle.kap_http.specs.Bodies.{can_be_defined, definition_in, definition_of, has_no_pairs, is_empty_list, is_stream, is_text, json_of, set_of, status_at, status_of, status_or_disabled, text_at};
ghost use Rattle.kap_http.specs.declared.refusal.Refusal.TheVariants.{BadBody as bad_body, NoMemory as no_memory};

use crate::ask::DefineAsk;
use crate::refusal::Refusal;
use kap_base::{SCRIPT_LIMIT, Text, is_task_id};
use serde_json::Value;
use std::alloc::Global;

/// The value of a body.
#[tactic(auto, using(crate::proofs::BodyLaws::json_is, crate::proofs::BodyLaws::json_none))]
fn json_of(alloc: Global, body: &[u8]) -> Result<Value, Refusal>
    ensures value { IfOk result (λ v. json_of body.now ≡ Some (view v)) }
    ensures err { IfErr result (λ e. e ≢ no_memory → (e ≡ bad_body) × (json_of body.now ≡ None)) }
{
    match Value::from_slice(alloc, body) {
        Ok(value) => Ok(value),
        Err(fault) => {
            if fault.is_memory() {
                Err(Refusal::NoMemory)
            } else {
                Err(Refusal::BadBody)
            }
        }
    }
}

fn text_at<'v>(value: &'v Value, key: &str) -> Option<&'v str>
    ensures { option_map (λ s. s.now) result ≡ text_at key.now (view value.now) }
{
    value.get(key).and_then(Value::as_str)
}

fn status_of(text: &[u8]) -> Option<bool>
    ensures { result ≡ status_of text.now }
{
    if text == b"enabled".as_slice() {
        Some(true)
    } else if text == b"disabled".as_slice() {
        Some(false)
    } else {
        None
    }
}

fn status_at(value: &Value) -> Option<bool>
    ensures { result ≡ status_at (view value.now) }
{
    match text_at(value, "status") {
        Some(text) => status_of(text.as_bytes()),
        None => None,
    }
}

fn status_or_disabled(value: &Value) -> Option<bool>
    ensures { result ≡ status_or_disabled (view value.now) }
{
    if value.get("status").is_some() {
        status_at(value)
    } else {
        Some(false)
    }
}

fn is_text(value: &Value, word: &[u8]) -> bool
    ensures { result ≡ is_text word.now (as_str (view value.now)) }
{
    match value.as_str() {
        Some(text) => text.as_bytes() == word,
        None => false,
    }
}

fn is_stream(value: &Value) -> bool
    ensures { result ≡ is_stream (get (codes "type") (view value.now)) }
{
    match value.get("type") {
        Some(kind) => is_text(kind, b"stream"),
        None => true,
    }
}

#[tactic(auto, using(crate::proofs::BodyLaws::empty_list))]
fn is_empty_list(value: &Value) -> bool
    ensures { result ≡ is_empty_list (as_array (view value.now)) }
{
    match value.as_array() {
        Some(items) => items.len() == 0,
        None => false,
    }
}

fn has_no_pairs(value: &Value) -> bool
    ensures { result ≡ has_no_pairs (get (codes "dbrps") (view value.now)) }
{
    match value.get("dbrps") {
        Some(pairs) => pairs.is_null() || is_empty_list(pairs),
        None => true,
    }
}

fn can_be_defined(value: &Value) -> bool
    ensures { result ≡ can_be_defined (view value.now) }
{
    is_stream(value) && has_no_pairs(value)
}

/// The task that a value defines.
#[tactic(auto, unfolding(crate::specs::Bodies::definition_in))]
fn definition_in(alloc: Global, value: &Value) -> Result<DefineAsk, Refusal>
    ensures { Answers no_memory result (definition_in (view value.now)) }
{
    let Some(id) = text_at(value, "id") else {
        return Err(Refusal::BadBody);
    };
    let Some(script) = text_at(value, "script") else {
        return Err(Refusal::BadBody);
    };
    let Some(enabled) = status_or_disabled(value) else {
        return Err(Refusal::BadBody);
    };
    if !is_task_id(id.as_bytes()) {
        return Err(Refusal::BadBody);
    }
    if !can_be_defined(value) {
        return Err(Refusal::BadBody);
    }
    if SCRIPT_LIMIT < script.len() {
        return Err(Refusal::TooLong);
    }
    Ok(DefineAsk {
        id: Text::from_str(alloc, id)?,
        script: Text::from_str(alloc, script)?,
        enabled,
    })
}

/// The task that a body defines.
pub(crate) fn definition_of(alloc: Global, body: &[u8]) -> Result<DefineAsk, Refusal>
    ensures { Answers no_memory result (definition_of body.now) }
{
    let value = json_of(alloc, body)?;
    definition_in(alloc, &value)
}

/// The status that a body sets.
pub(crate) fn set_of(alloc: Global, body: &[u8]) -> Result<bool, Refusal>
    ensures { Answers no_memory result (set_of body.now) }
{
    let value = json_of(alloc, body)?;
    match status_at(&value) {
        Some(enabled) => Ok(enabled),
        None => Err(Refusal::BadBody),
    }
}
