//! Replies, and their bytes.

ghost use Rattle.std.specs.Prelude.{◌≡◌, IfOk, IsTrue, OnOk};
ghost use Rattle.kap_http.specs.ReplyValues.{is_status};
ghost use Rattle.kap_http.specs.Replies.{fault_reply, last_text, out_of_memory, reply_text, status_text, with_fields};

use crate::fault::HttpFault;
use itoa::Buffer;
use kap_base::{Bytes, NoMemory};
use std::alloc::Global;
use std::marker::Model;

/// A reply. Its status is one of 200, 204, 400, 404, 405, 409, 413, 500 and 503, and it has no body at 204
/// and 503.
#[derive(Debug, PartialEq, Eq, Drop)]
pub struct Reply {
    /// The status (RFC 9110).
    pub status: u16,
    /// The body, which is JSON.
    pub body: Bytes,
    /// Whether the connection ends behind it.
    pub last: bool,
}

impl Model for Reply {
    ghost use Rattle.kap_http.specs.ReplyValues.{ReplyValue, IsReply};

    ghost Value = { ReplyValue };

    ghost view = { λ r. record {
      status = r.status;
      body = r.body;
      last = r.last;
    } };

    ghost inverse = { λ r. record {
      status = r.status;
      body = r.body;
      last = r.last;
    } };

    ghost invariant = { λ r. IsReply (record {
      status = r.status;
      body = r.body;
      last = r.last;
    }) };
}

/// The number of a status and its reason.
fn status_text(status: u16) -> &'static [u8]
    requires { IsTrue (is_status status) }
    ensures { result.now ≡ status_text status }
{
    match status {
        200 => b"200 OK",
        204 => b"204 No Content",
        400 => b"400 Bad Request",
        404 => b"404 Not Found",
        405 => b"405 Method Not Allowed",
        409 => b"409 Conflict",
        413 => b"413 Payload Too Large",
        500 => b"500 Internal Server Error",
        _ => b"503 Service Unavailable",
    }
}

/// Adds the fields that speak of the body.
fn add_fields(text: &mut Bytes, status: u16, len: usize) -> Result<(), NoMemory>
    ensures { OnOk result (text.new ≡ with_fields text.old status len) }
{
    if status == 204 {
        return Ok(());
    }
    if status == 503 {
        return text.append(b"Content-Length: 0\r\n");
    }
    let mut buffer = Buffer::new();
    text.append(b"Content-Type: application/json\r\nContent-Length: ")?;
    text.append(buffer.format(len).as_bytes())?;
    text.append(b"\r\n")
}

fn last_text(last: bool) -> &'static [u8]
    ensures { result.now ≡ last_text last }
{
    if last { b"Connection: close\r\n" } else { b"" }
}

/// The bytes of a reply.
#[tactic(auto, unfolding(crate::specs::Replies::reply_text))]
pub fn print_reply(alloc: Global, reply: &Reply) -> Result<Bytes, NoMemory>
    ensures { IfOk result (λ text. text ≡ reply_text reply.now) }
{
    let mut text = Bytes::new(alloc);
    text.append(b"HTTP/1.1 ")?;
    text.append(status_text(reply.status))?;
    text.append(b"\r\n")?;
    add_fields(&mut text, reply.status, reply.body.len())?;
    text.append(last_text(reply.last))?;
    text.append(b"\r\n")?;
    text.append(reply.body.as_slice())?;
    Ok(text)
}

/// The bytes of the reply that says that memory ran out. They take no memory.
#[tactic(auto, unfolding(crate::specs::Replies::reply_text))]
pub fn no_memory_text(last: bool) -> &'static [u8]
    ensures { result.now ≡ reply_text (out_of_memory last) }
{
    if last {
        b"HTTP/1.1 503 Service Unavailable\r\nContent-Length: 0\r\nConnection: close\r\n\r\n"
    } else {
        b"HTTP/1.1 503 Service Unavailable\r\nContent-Length: 0\r\n\r\n"
    }
}

#[tactic(auto, unfolding(crate::specs::Replies::reply_text))]
fn bad_text() -> &'static [u8]
    ensures { result.now ≡ reply_text (fault_reply HttpFault.Bad) }
{
    b"HTTP/1.1 400 Bad Request\r\nContent-Type: application/json\r\nContent-Length: 23\r\nConnection: close\r\n\r\n{\"error\":\"bad request\"}"
}

#[tactic(auto, unfolding(crate::specs::Replies::reply_text))]
fn large_text() -> &'static [u8]
    ensures { result.now ≡ reply_text (fault_reply HttpFault.Large) }
{
    b"HTTP/1.1 413 Payload Too Large\r\nContent-Type: application/json\r\nContent-Length: 21\r\nConnection: close\r\n\r\n{\"error\":\"too large\"}"
}

/// The bytes of the reply to bytes that hold no request; it is the last. They take no memory.
pub fn fault_text(fault: HttpFault) -> &'static [u8]
    ensures { result.now ≡ reply_text (fault_reply fault) }
{
    match fault {
        HttpFault::Bad => bad_text(),
        HttpFault::Large => large_text(),
        HttpFault::NoMemory => no_memory_text(true),
    }
}
