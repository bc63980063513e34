//! `reply print STATUS LAST BODY`: the bytes of a reply, `LAST` being `last` or `more`; `reply error CAUSE`:
//! those of a refusal with status 400; `reply fault NAME`: those that need no memory; `reply write STEP CALLS
//! BYTES`: bytes written to a connection.

ghost use Rattle.std.specs.Prelude.{◌<◌, ◌||◌, IsTrue, not};
ghost use Rattle.kap_base.specs.Texts.{is_empty};
ghost use Rattle.kap_http.specs.ReplyValues.{is_bare, is_status};

use crate::texts::put_number;
use case_text::{LineFault, bytes, calls, first_of, number, put_shown};
use kap_base::{Bytes, NoMemory};
use kap_http::{HttpFault, Reply, error_reply, fault_text, no_memory_text, print_reply};
use kap_io::{Failed, Link, MemLink};
use std::alloc::Global;

/// Adds the bytes of a reply.
fn put_reply(alloc: Global, reply: &Reply, to: &mut Bytes) -> Result<(), NoMemory> {
    put_shown(print_reply(alloc, reply)?.as_slice(), to)
}

/// Whether a reply may have this status and this body.
fn is_reply(status: u16, body: &[u8]) -> bool
    ensures status { IsTrue result → IsTrue (is_status status) }
    ensures body { IsTrue result → IsTrue (not (is_bare status) || is_empty body.now) }
{
    match status {
        204 | 503 => body.is_empty(),
        200 | 400 | 404 | 405 | 409 | 413 | 500 => true,
        _ => false,
    }
}

/// The reply that a line tells.
fn reply_of(alloc: Global, line: &str) -> Result<Reply, LineFault> {
    let (status, rest) = first_of(line);
    let (last, body) = first_of(rest);
    let Ok(status) = status.parse::<u16>() else {
        return Err(LineFault::NoForm);
    };
    let body = Bytes::from_items(bytes(alloc, body)?);
    if !is_reply(status, body.as_slice()) {
        return Err(LineFault::NoForm);
    }
    Ok(Reply {
        status,
        body,
        last: last == "last",
    })
}

/// The bytes of a fault.
fn fault_bytes(name: &str) -> Result<&'static [u8], LineFault> {
    match name {
        "bad" => Ok(fault_text(HttpFault::Bad)),
        "large" => Ok(fault_text(HttpFault::Large)),
        "memory" => Ok(no_memory_text(false)),
        _ => Err(LineFault::NoForm),
    }
}

/// The bytes behind so many.
fn behind(bytes: &[u8], count: usize) -> &[u8] {
    bytes.split_at(count.min(bytes.len())).1
}

/// Writes until all is written, and adds where a write failed.
fn write_all<L: Link>(
    alloc: Global,
    link: &mut L,
    text: &[u8],
    to: &mut Bytes,
) -> Result<(), NoMemory> {
    let mut rest = text;
    for _ in 0..1000 {
        if rest.is_empty() {
            return Ok(());
        }
        match link.write(rest) {
            Ok(count) => rest = behind(rest, count),
            Err(Failed) => {
                put_number(alloc, "failed with ", rest.len() as u64, to)?;
                to.append(b" left; ")?;
            }
        }
    }
    Ok(())
}

/// Writes bytes to a connection, and adds what came there.
fn put_written(alloc: Global, line: &str, to: &mut Bytes) -> Result<(), LineFault> {
    let (step, rest) = first_of(line);
    let (fails, word) = first_of(rest);
    let step = number(step)? as usize;
    if step == 0 {
        return Err(LineFault::NoForm);
    }
    let mut link = MemLink::new(alloc, Vec::new(alloc), step, calls(alloc, fails)?);
    write_all(alloc, &mut link, &bytes(alloc, word)?, to)?;
    put_shown(link.bytes(), to)?;
    Ok(())
}

/// Adds the answer of a line `reply`.
pub fn answer_reply(alloc: Global, line: &str, to: &mut Bytes) -> Result<(), LineFault> {
    let (kind, rest) = first_of(line);
    match kind {
        "print" => put_reply(alloc, &reply_of(alloc, rest)?, to)?,
        "error" => put_reply(alloc, &error_reply(alloc, 400, &bytes(alloc, rest)?), to)?,
        "fault" => put_shown(fault_bytes(rest)?, to)?,
        "write" => put_written(alloc, rest, to)?,
        _ => return Err(LineFault::NoForm),
    }
    Ok(())
}
