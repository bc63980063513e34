//! `request head BYTES`: the head that bytes begin with; `request come STEP CALLS BYTES`: bytes that come
//! over a connection, so many a read, whose calls with these numbers fail, and what the requests in them ask,
//! each with the number of bytes that were held when it was whole.

ghost use Rattle.std.specs.Prelude.{◌<◌};

use crate::texts::{put_number, put_numbers};
use case_text::{LineFault, bytes, calls, first_of, number, put_shown};
use kap_base::{Bytes, NoMemory};
use kap_http::{
    Ask, DefineAsk, HttpFault, Reply, Request, TaskAsk, TopicAsk, WriteAsk, read_head,
    read_request, route,
};
use kap_io::{Failed, Link, MemLink};
use std::alloc::Global;

/// How many reads are made at most.
const MOST: u32 = 1_000_000;

/// Adds the names under which points are to be written.
fn put_names(alloc: Global, write: &WriteAsk, to: &mut Bytes) -> Result<(), NoMemory> {
    let text = format!(in alloc; "write '{}' '{}' ", write.db, write.rp)?;
    put_shown(text.as_bytes(), to)
}

/// Adds the text of points to be written: their names, their precision and how many bytes they have.
fn put_write(alloc: Global, write: &WriteAsk, to: &mut Bytes) -> Result<(), NoMemory> {
    put_names(alloc, write, to)?;
    let text = format!(in alloc; "{:?} ", write.precision)?;
    put_shown(text.as_bytes(), to)?;
    put_number(alloc, "", write.body.len() as u64, to)
}

/// Adds the text of a task to be defined.
fn put_define(alloc: Global, task: &DefineAsk, to: &mut Bytes) -> Result<(), NoMemory> {
    let text = format!(in alloc; "define '{}' '{}' {}", task.id, task.script, task.enabled)?;
    put_shown(text.as_bytes(), to)
}

/// Adds the text of what is to be done with a task.
fn put_task(alloc: Global, task: &TaskAsk, to: &mut Bytes) -> Result<(), NoMemory> {
    let text = format!(in alloc; "task '{}' {:?}", task.id, task.act)?;
    put_shown(text.as_bytes(), to)
}

/// Adds the text of a topic.
fn put_topic(alloc: Global, topic: &TopicAsk, to: &mut Bytes) -> Result<(), NoMemory> {
    let text = format!(in alloc; "topic '{}'", topic.name)?;
    put_shown(text.as_bytes(), to)
}

/// Adds the text of an ask.
fn put_ask(alloc: Global, ask: &Ask, to: &mut Bytes) -> Result<(), NoMemory> {
    match ask {
        Ask::Ping => to.append(b"ping"),
        Ask::Write(write) => put_write(alloc, write, to),
        Ask::Tasks => to.append(b"tasks"),
        Ask::Define(task) => put_define(alloc, task, to),
        Ask::Task(task) => put_task(alloc, task, to),
        Ask::Topics => to.append(b"topics"),
        Ask::Topic(topic) => put_topic(alloc, topic, to),
    }
}

/// Adds the status and the body of a refusal.
fn put_refusal(alloc: Global, reply: &Reply, to: &mut Bytes) -> Result<(), NoMemory> {
    put_number(alloc, "", u64::from(reply.status), to)?;
    to.push(b' ')?;
    put_shown(reply.body.as_slice(), to)
}

/// Adds what a request asks.
fn put_request(alloc: Global, request: &Request, to: &mut Bytes) -> Result<(), NoMemory> {
    match route(alloc, request) {
        Ok(ask) => put_ask(alloc, &ask, to)?,
        Err(reply) => put_refusal(alloc, &reply, to)?,
    }
    to.append(last_name(request.last))
}

fn last_name(last: bool) -> &'static [u8] {
    if last { b" last" } else { b"" }
}

/// Adds a fault.
fn put_fault(fault: HttpFault, to: &mut Bytes) -> Result<(), NoMemory> {
    match fault {
        HttpFault::Bad => to.append(b"bad"),
        HttpFault::Large => to.append(b"large"),
        HttpFault::NoMemory => to.append(b"no memory"),
    }
}

/// Adds the number of bytes that are held.
fn put_count(alloc: Global, count: usize, to: &mut Bytes) -> Result<(), NoMemory> {
    put_number(alloc, "", count as u64, to)?;
    to.push(b' ')
}

/// The request of the head that bytes begin with; none where its bytes aren't there.
fn by_head(alloc: Global, held: &[u8]) -> Result<Option<Request>, HttpFault> {
    let Some(head) = read_head(alloc, held)? else {
        return Ok(None);
    };
    if held.len() < head.total() {
        return Ok(None);
    }
    Ok(Some(head.request(alloc, held)?))
}

/// Whether two requests are one.
fn are_same(one: &Request, other: &Request) -> bool {
    one.method == other.method
        && one.target == other.target
        && one.last == other.last
        && one.body.as_slice() == other.body.as_slice()
}

/// Adds a request that is whole, and whether its head gives another one.
fn put_whole(
    alloc: Global,
    request: &Request,
    held: &[u8],
    to: &mut Bytes,
) -> Result<(), NoMemory> {
    put_count(alloc, held.len(), to)?;
    put_request(alloc, request, to)?;
    match by_head(alloc, held) {
        Ok(Some(other)) if are_same(request, &other) => to.append(b"; "),
        _ => to.append(b" but not by its head; "),
    }
}

/// Drops so many bytes at the front.
fn drop_front(alloc: Global, held: &mut Bytes, len: usize) -> Result<(), NoMemory> {
    let (_, rest) = held.as_slice().split_at(len.min(held.len()));
    *held = Bytes::from_items(rest.to_vec(alloc)?);
    Ok(())
}

/// Takes the first request, where it is whole; whether there may be another one behind it.
fn take_one(alloc: Global, held: &mut Bytes, to: &mut Bytes) -> Result<Option<bool>, NoMemory> {
    match read_request(alloc, held.as_slice()) {
        Ok(None) => Ok(Some(false)),
        Ok(Some((request, len))) => {
            put_whole(alloc, &request, held.as_slice(), to)?;
            drop_front(alloc, held, len)?;
            Ok(Some(true))
        }
        Err(fault) => {
            put_count(alloc, held.len(), to)?;
            put_fault(fault, to)?;
            Ok(None)
        }
    }
}

/// Takes the requests that are whole, and says whether reading goes on.
fn take_all(alloc: Global, held: &mut Bytes, to: &mut Bytes) -> Result<bool, NoMemory> {
    for _ in 0..MOST {
        match take_one(alloc, held, to)? {
            Some(true) => {}
            Some(false) => return Ok(true),
            None => return Ok(false),
        }
    }
    Ok(false)
}

/// So many bytes at the front.
fn first_bytes(bytes: &[u8], count: usize) -> &[u8] {
    bytes.split_at(count.min(bytes.len())).0
}

/// Adds what a read gives, and says how many bytes that is; none where it fails.
fn read_piece<L: Link>(link: &mut L, held: &mut Bytes) -> Result<Option<usize>, NoMemory> {
    let mut piece = [0u8; 1024];
    match link.read(&mut piece) {
        Ok(count) => {
            held.append(first_bytes(&piece, count))?;
            Ok(Some(count))
        }
        Err(Failed) => Ok(None),
    }
}

/// Reads once, and says whether reading goes on.
fn bring(
    alloc: Global,
    link: &mut MemLink,
    held: &mut Bytes,
    to: &mut Bytes,
) -> Result<bool, NoMemory> {
    match read_piece(link, held)? {
        Some(0) => {
            put_count(alloc, held.len(), to)?;
            to.append(b"end")?;
            Ok(false)
        }
        Some(_) => take_all(alloc, held, to),
        None => {
            put_count(alloc, held.len(), to)?;
            to.append(b"failed; ")?;
            Ok(true)
        }
    }
}

/// Reads to the end, or to the first fault.
fn read_all(alloc: Global, link: &mut MemLink, to: &mut Bytes) -> Result<(), NoMemory> {
    let mut held = Bytes::new(alloc);
    for _ in 0..MOST {
        if !bring(alloc, link, &mut held, to)? {
            return Ok(());
        }
    }
    Ok(())
}

/// Adds the requests that come over a connection.
fn put_come(alloc: Global, line: &str, to: &mut Bytes) -> Result<(), LineFault> {
    let (step, rest) = first_of(line);
    let (fails, word) = first_of(rest);
    let step = number(step)? as usize;
    if step == 0 {
        return Err(LineFault::NoForm);
    }
    let mut link = MemLink::new(alloc, bytes(alloc, word)?, step, calls(alloc, fails)?);
    read_all(alloc, &mut link, to)?;
    Ok(())
}

/// Adds the head that bytes begin with: how long it is, and its body.
fn put_head(alloc: Global, bytes: &[u8], to: &mut Bytes) -> Result<(), NoMemory> {
    match read_head(alloc, bytes) {
        Ok(Some(head)) => {
            let numbers = [("", head.len as u64), (" and ", head.size as u64)];
            put_numbers(alloc, &numbers, to)
        }
        Ok(None) => to.append(b"none"),
        Err(fault) => put_fault(fault, to),
    }
}

/// Adds the answer of a line `request`.
pub fn answer_request(alloc: Global, line: &str, to: &mut Bytes) -> Result<(), LineFault> {
    let (kind, rest) = first_of(line);
    match kind {
        "head" => put_head(alloc, &bytes(alloc, rest)?, to)?,
        "come" => put_come(alloc, rest, to)?,
        _ => return Err(LineFault::NoForm),
    }
    Ok(())
}
