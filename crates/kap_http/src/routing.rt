//! What requests ask.

ghost use Rattle.std.specs.Prelude.{◌≡◌, ◌≤◌, ◌&&◌, IfOk, IsTrue, false, length, not};
ghost use Rattle.std.specs.Str.{is_utf8};
ghost use Rattle.form_urlencoded.specs.Form.{raw_pairs};
ghost use Rattle.kap_base.specs.Texts.{is_empty, is_line};
ghost use Rattle.kap_base.specs.Words.{Answers};
ghost use Rattle.kap_http.specs.Refusals.{as_reply};
ghost use Rattle.kap_http.specs.Replies.{out_of_memory};
ghost use Rattle.kap_http.specs.Routes.{ask_of, database_of, line_of, name_of, ping_ask, precision_of, task_ask, task_of, tasks_ask, topic_ask, topics_ask, write_ask, write_of};
ghost use Rattle.kap_http.specs.declared.refusal.Refusal.TheVariants.{NoMemory as no_memory};

use crate::ask::{Ask, Precision, TaskAct, TaskAsk, TopicAsk, WriteAsk};
use crate::body::{definition_of, set_of};
use crate::limits::{HEAD_LIMIT, WRITE_LIMIT};
use crate::method::{Method, method_of};
use crate::path::{Place, path_of, query_of, way_of};
use crate::query::value_of;
use crate::refusal::Refusal;
use crate::reply::Reply;
use crate::request::Request;
use kap_base::{Bytes, Duplicate, Text};
use percent_encoding::percent_decode;
use std::alloc::Global;
use std::str;

fn precision_of(name: &[u8]) -> Result<Precision, Refusal>
    ensures { result ≡ precision_of name.now }
{
    if name.is_empty() {
        Ok(Precision::Ns)
    } else if name == b"ns".as_slice() {
        Ok(Precision::Ns)
    } else if name == b"n".as_slice() {
        Ok(Precision::Ns)
    } else if name == b"u".as_slice() {
        Ok(Precision::Us)
    } else if name == b"ms".as_slice() {
        Ok(Precision::Ms)
    } else if name == b"s".as_slice() {
        Ok(Precision::S)
    } else if name == b"m".as_slice() {
        Ok(Precision::M)
    } else if name == b"h".as_slice() {
        Ok(Precision::H)
    } else {
        Err(Refusal::BadPrecision)
    }
}

#[tactic(auto, using(crate::proofs::NameLaws::utf8_passes, crate::proofs::NameLaws::other_fails))]
fn is_utf8(bytes: &[u8]) -> bool
    ensures { result ≡ is_utf8 bytes.now }
{
    str::from_utf8(bytes).is_ok()
}

/// The name of a database or a policy.
#[tactic(auto, using(crate::proofs::NameLaws::passed_utf8, crate::proofs::NameLaws::no_line))]
fn line_of(name: Vec<u8>) -> Result<Text, Refusal>
    ensures name { result ≡ line_of name.items }
    ensures line { IfOk result (λ text. IsTrue (is_line text)) }
    ensures len { IfOk result (λ text. length text ≤ length name.items) }
{
    if !is_utf8(name.as_slice()) {
        return Err(Refusal::BadName);
    }
    let text = Text::from_utf8(name);
    if text.is_line() {
        Ok(text)
    } else {
        Err(Refusal::BadName)
    }
}

/// The name of a database.
fn database_of(name: Vec<u8>) -> Result<Text, Refusal>
    ensures name { result ≡ database_of name.items }
    ensures line { IfOk result (λ text. IsTrue (is_line text && not (is_empty text))) }
    ensures len { IfOk result (λ text. length text ≤ length name.items) }
{
    if name.is_empty() {
        return Err(Refusal::DbMissing);
    }
    line_of(name)
}

/// What is to be written.
#[tactic(auto, unfolding(crate::specs::Routes::write_of))]
fn write_of(alloc: Global, query: &[u8], body: &Bytes) -> Result<WriteAsk, Refusal>
    requires query { length query.now ≤ HEAD_LIMIT }
    requires body { length body.now ≤ WRITE_LIMIT }
    ensures { Answers no_memory result (write_of (raw_pairs query.now) body.now) }
{
    let db = database_of(value_of(alloc, query, b"db")?)?;
    let rp = line_of(value_of(alloc, query, b"rp")?)?;
    let name = value_of(alloc, query, b"precision")?;
    let precision = precision_of(name.as_slice())?;
    Ok(WriteAsk {
        db,
        rp,
        precision,
        body: body.copy(alloc)?,
    })
}

/// What a part of a path names.
#[tactic(auto, using(crate::proofs::NameLaws::passed_utf8, crate::proofs::NameLaws::decoded_len))]
fn name_of(alloc: Global, refusal: Refusal, part: &[u8]) -> Result<Text, Refusal>
    ensures name { Answers no_memory result (name_of refusal part.now) }
    ensures len { IfOk result (λ name. length name ≤ length part.now) }
{
    let mut name = Vec::new(alloc);
    percent_decode(part).append_to(&mut name)?;
    if is_utf8(name.as_slice()) {
        Ok(Text::from_utf8(name))
    } else {
        Err(refusal)
    }
}

fn task_of(alloc: Global, act: TaskAct, part: &[u8]) -> Result<Ask, Refusal>
    requires { length part.now ≤ HEAD_LIMIT }
    ensures { Answers no_memory result (task_of act part.now) }
{
    let id = name_of(alloc, Refusal::NoTask, part)?;
    Ok(Ask::Task(TaskAsk { id, act }))
}

fn ping_ask(method: Method) -> Result<Ask, Refusal>
    ensures { result ≡ ping_ask method }
{
    match method {
        Method::Get | Method::Head => Ok(Ask::Ping),
        _ => Err(Refusal::NoMethod),
    }
}

fn write_ask(alloc: Global, method: Method, query: &[u8], body: &Bytes) -> Result<Ask, Refusal>
    requires query { length query.now ≤ HEAD_LIMIT }
    requires body { length body.now ≤ WRITE_LIMIT }
    ensures { Answers no_memory result (write_ask method query.now body.now) }
{
    match method {
        Method::Post => Ok(Ask::Write(write_of(alloc, query, body)?)),
        _ => Err(Refusal::NoMethod),
    }
}

fn tasks_ask(alloc: Global, method: Method, body: &Bytes) -> Result<Ask, Refusal>
    ensures { Answers no_memory result (tasks_ask method body.now) }
{
    match method {
        Method::Get => Ok(Ask::Tasks),
        Method::Post => Ok(Ask::Define(definition_of(alloc, body.as_slice())?)),
        _ => Err(Refusal::NoMethod),
    }
}

fn task_ask(alloc: Global, method: Method, part: &[u8], body: &Bytes) -> Result<Ask, Refusal>
    requires { length part.now ≤ HEAD_LIMIT }
    ensures { Answers no_memory result (task_ask method part.now body.now) }
{
    match method {
        Method::Get => task_of(alloc, TaskAct::Show, part),
        Method::Patch => {
            let act = if set_of(alloc, body.as_slice())? {
                TaskAct::Enable
            } else {
                TaskAct::Disable
            };
            task_of(alloc, act, part)
        }
        Method::Delete => task_of(alloc, TaskAct::Delete, part),
        _ => Err(Refusal::NoMethod),
    }
}

fn topics_ask(method: Method) -> Result<Ask, Refusal>
    ensures { result ≡ topics_ask method }
{
    match method {
        Method::Get => Ok(Ask::Topics),
        _ => Err(Refusal::NoMethod),
    }
}

fn topic_ask(alloc: Global, method: Method, part: &[u8]) -> Result<Ask, Refusal>
    requires { length part.now ≤ HEAD_LIMIT }
    ensures { Answers no_memory result (topic_ask method part.now) }
{
    match method {
        Method::Get => {
            let name = name_of(alloc, Refusal::NoPath, part)?;
            Ok(Ask::Topic(TopicAsk { name }))
        }
        _ => Err(Refusal::NoMethod),
    }
}

/// What a request asks, or why it is refused.
#[tactic(auto, unfolding(crate::specs::Routes::ask_of), using(crate::proofs::SizeLaws::limit_most))]
fn ask_of(alloc: Global, request: &Request) -> Result<Ask, Refusal>
    ensures { Answers no_memory result (ask_of request.now) }
{
    let target = request.target.bytes();
    let Some((place, part)) = way_of(path_of(target)) else {
        return Err(Refusal::NoPath);
    };
    let method = method_of(request.method.bytes());
    match place {
        Place::Ping => ping_ask(method),
        Place::Write => write_ask(alloc, method, query_of(target), &request.body),
        Place::Tasks => tasks_ask(alloc, method, &request.body),
        Place::Task => task_ask(alloc, method, part, &request.body),
        Place::Topics => topics_ask(method),
        Place::Topic => topic_ask(alloc, method, part),
    }
}

/// What a request asks, or the reply to one that is refused: 404 for a path that leads nowhere; then 405 for
/// a method that its path doesn't take; then 400 and 404 for what stands in its target and its body. 503 says
/// that memory ran out. Query values and path parts are decoded (URL Standard: percent-decoding,
/// `application/x-www-form-urlencoded`), a `+` being a space in a query alone; bodies are JSON as serde_json
/// reads it.
pub fn route(alloc: Global, request: &Request) -> Result<Ask, Reply>
    ensures { Answers (out_of_memory false) result (as_reply (ask_of request.now)) }
{
    match ask_of(alloc, request) {
        Ok(ask) => Ok(ask),
        Err(refusal) => Err(refusal.reply(alloc)),
    }
}
