//! What answers the requests of the cases.

ghost use Rattle.std.specs.Prelude.{None};

use crate::texts::put_number;
use case_text::put_shown;
use http_dialog::LinkEnd;
use kap_base::{Bytes, NoMemory};
use kap_http::{Reply, Request, Serve};
use std::alloc::Global;

/// Answers a request of `/long` with a body of 70,000 bytes, one of `/last` by a reply that is marked as the
/// last, and every other by a 204. It counts its calls.
#[derive(Drop)]
pub struct Answers {
    pub served: u32,
}

/// Adds so many bytes.
fn add_bytes(size: u32, to: &mut Bytes) -> Result<(), NoMemory> {
    for _ in 0..size {
        to.push(b'a')?;
    }
    Ok(())
}

/// A body of so many bytes, as far as memory allows.
fn body_of(alloc: Global, size: u32) -> Bytes {
    let mut body = Bytes::new(alloc);
    let _ = add_bytes(size, &mut body);
    body
}

fn long_reply(alloc: Global) -> Reply {
    Reply {
        status: 200,
        body: body_of(alloc, 70_000),
        last: false,
    }
}

fn bare_reply(alloc: Global, last: bool) -> Reply {
    Reply {
        status: 204,
        body: Bytes::new(alloc),
        last,
    }
}

impl Serve for Answers {
    ghost served = { λ _. None };

    fn serve(&mut self, alloc: Global, _number: u32, request: &Request) -> Reply {
        self.served = self.served.saturating_add(1);
        if request.target.as_str() == "/long" {
            return long_reply(alloc);
        }
        bare_reply(alloc, request.target.as_str() == "/last")
    }
}

/// The name of an end.
fn end_name(end: LinkEnd) -> &'static str {
    match end {
        LinkEnd::Closed => "closed",
        LinkEnd::Limit => "limit",
        LinkEnd::Refused => "refused",
        LinkEnd::ReadFault => "read fault",
        LinkEnd::WriteFault => "write fault",
        LinkEnd::NoMemory => "no memory",
    }
}

/// How many bytes are shown as they are.
const SHOWN: usize = 200;

/// Adds bytes that were written: all, or their number and the last ones.
fn put_written(alloc: Global, written: &[u8], to: &mut Bytes) -> Result<(), NoMemory> {
    if written.len() <= SHOWN {
        return put_shown(written, to);
    }
    put_number(alloc, "", written.len() as u64, to)?;
    to.append(b" bytes, last ")?;
    let (_, last) = written.split_at(written.len() - 60);
    put_shown(last, to)
}

/// Adds how a connection ended, how many requests were served, and what was written.
pub fn put_end(
    alloc: Global,
    end: LinkEnd,
    served: u32,
    written: &[u8],
    to: &mut Bytes,
) -> Result<(), NoMemory> {
    to.append(end_name(end).as_bytes())?;
    put_number(alloc, ", ", u64::from(served), to)?;
    to.append(b" served, ")?;
    put_written(alloc, written, to)
}
