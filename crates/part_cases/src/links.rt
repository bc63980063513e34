//! `link STEP CALLS TIMES BYTES`: bytes, so many times one behind the other, that come over a connection, so
//! many a read, whose calls with these numbers fail; `prefixes STEP BYTES`: how the connections end over
//! which each prefix of these bytes comes; `door CALLS BYTES`: two connections with these bytes at a door
//! whose calls with these numbers fail.

ghost use Rattle.std.specs.Prelude.{◌<◌, IfOk};

use crate::answers::{Answers, put_end};
use crate::texts::put_numbers;
use case_text::{LineFault, bytes, calls, first_of, number};
use http_dialog::LinkEnd;
use kap_base::{Bytes, NoMemory};
use kap_io::{Door, Failed, Link, MemDoor, MemLink};
use link_serve::serve_link;
use std::alloc::Global;

/// Bytes, so many times one behind the other.
pub fn repeated(alloc: Global, bytes: &[u8], times: u64) -> Result<Vec<u8>, NoMemory> {
    let mut all = Vec::new(alloc);
    for _ in 0..times.min(10_000) {
        all.extend_from_slice(bytes)?;
    }
    Ok(all)
}

/// How many bytes a call gives and takes.
pub fn step_of(word: &str) -> Result<usize, LineFault>
    ensures { IfOk result (λ step. 0 < step) }
{
    let step = number(word)? as usize;
    if step == 0 {
        return Err(LineFault::NoForm);
    }
    Ok(step)
}

/// Serves a connection to its end.
fn serve_all<L: Link>(alloc: Global, link: &mut L, serve: &mut Answers) -> LinkEnd {
    serve_link(alloc, link, serve)
}

/// Adds the answer of a line `link`.
pub fn answer_link(alloc: Global, line: &str, to: &mut Bytes) -> Result<(), LineFault> {
    let (step, rest) = first_of(line);
    let (fails, rest) = first_of(rest);
    let (times, word) = first_of(rest);
    let step = step_of(step)?;
    let fails = calls(alloc, fails)?;
    let all = repeated(alloc, &bytes(alloc, word)?, number(times)?)?;
    let mut link = MemLink::new(alloc, all, step, fails);
    let mut serve = Answers { served: 0 };
    let end = serve_all(alloc, &mut link, &mut serve);
    put_end(alloc, end, serve.served, link.bytes(), to)?;
    Ok(())
}

/// How many connections ended so.
#[derive(Drop)]
struct Ends {
    closed: u32,
    refused: u32,
    others: u32,
    written: u64,
}

/// Serves a connection over which these bytes come, and counts how it ends.
fn count_end(alloc: Global, prefix: &[u8], step: usize, ends: &mut Ends) -> Result<(), NoMemory>
    requires { 0 < step }
{
    let mut all = Vec::new(alloc);
    all.extend_from_slice(prefix)?;
    let mut link = MemLink::new(alloc, all, step, Vec::new(alloc));
    let mut serve = Answers { served: 0 };
    match serve_all(alloc, &mut link, &mut serve) {
        LinkEnd::Closed => ends.closed = ends.closed.saturating_add(1),
        LinkEnd::Refused => ends.refused = ends.refused.saturating_add(1),
        _ => ends.others = ends.others.saturating_add(1),
    }
    ends.written = ends.written.saturating_add(link.bytes().len() as u64);
    Ok(())
}

/// Adds the answer of a line `prefixes`.
pub fn answer_prefixes(alloc: Global, line: &str, to: &mut Bytes) -> Result<(), LineFault> {
    let (step, word) = first_of(line);
    let step = step_of(step)?;
    let all = bytes(alloc, word)?;
    let mut ends = Ends {
        closed: 0,
        refused: 0,
        others: 0,
        written: 0,
    };
    for len in 0..=all.len() {
        let (prefix, _) = all.split_at(len.min(all.len()));
        count_end(alloc, prefix, step, &mut ends)?;
    }
    let numbers = [
        ("", u64::from(ends.closed)),
        (" closed, ", u64::from(ends.refused)),
        (" refused, ", u64::from(ends.others)),
        (" others, ", ends.written),
    ];
    put_numbers(alloc, &numbers, to)?;
    to.append(b" bytes written")?;
    Ok(())
}

/// A door at which two connections come.
fn door_of(alloc: Global, bytes: &[u8], fails: Vec<u64>) -> Result<MemDoor, NoMemory> {
    let mut links = Vec::new(alloc);
    for _ in 0..2 {
        let bytes = repeated(alloc, bytes, 1)?;
        links.push(MemLink::new(alloc, bytes, 1_000, Vec::new(alloc)))?;
    }
    Ok(MemDoor::new(links, fails))
}

/// Serves a connection that came at a door, and adds how it ended.
fn put_link(
    alloc: Global,
    mut link: MemLink,
    serve: &mut Answers,
    to: &mut Bytes,
) -> Result<(), NoMemory> {
    let end = serve_all(alloc, &mut link, serve);
    put_end(alloc, end, serve.served, link.bytes(), to)?;
    to.append(b"; ")
}

/// Adds the answer of a line `door`.
pub fn answer_door(alloc: Global, line: &str, to: &mut Bytes) -> Result<(), LineFault> {
    let (fails, word) = first_of(line);
    let fails = calls(alloc, fails)?;
    let mut door = door_of(alloc, &bytes(alloc, word)?, fails)?;
    let mut serve = Answers { served: 0 };
    for _ in 0..4 {
        match door.accept() {
            Ok(Some(link)) => put_link(alloc, link, &mut serve, to)?,
            Ok(None) => to.append(b"no more; ")?,
            Err(Failed) => to.append(b"failed; ")?,
        }
    }
    Ok(())
}
