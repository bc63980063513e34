//! Reading of heads and of requests.

ghost use Rattle.std.specs.Prelude.{◌≡◌, ◌≢◌, ◌+◌, ◌<◌, ◌≤◌, map, length, take, All, Err, Ok, IfNone, IfOk, IfSome, IsUtf8};
ghost use Rattle.httparse.specs.Spans.{IsWithin, IsHeaderWithin, header_bytes, span_bytes};
ghost use Rattle.kap_base.specs.Words.{Answers};
ghost use Rattle.kap_http.specs.Paths.{limit_of};
ghost use Rattle.kap_http.specs.Reading.{found, head_of, is_last, whole_in, Gives, GivesHead};

use crate::fault::HttpFault;
use crate::fields::{Sign, any_shows, body_len};
use crate::head::Head;
use crate::limits::{FIELD_LIMIT, HEAD_LIMIT, WRITE_LIMIT};
use crate::lines::has_more_lines;
use crate::path::limit_of;
use crate::request::Request;
use httparse::Status;
use httparse::spans::{EMPTY_HEADER_SPAN, HeaderSpan, RequestSpans, parse_request};
use kap_base::{NoMemory, Text, TextFault};
use std::alloc::Global;

/// The text with these bytes.
fn text_of(alloc: Global, bytes: &[u8]) -> Result<Text, NoMemory>
    requires { IsUtf8 bytes.now }
    ensures { IfOk result (λ t. t ≡ bytes.now) }
{
    match Text::from_bytes(alloc, bytes) {
        Ok(text) => Ok(text),
        Err(TextFault::NoMemory) => Err(NoMemory),
        Err(TextFault::NotUtf8) => unreachable!(),
    }
}

fn make(
    alloc: Global,
    method: &[u8],
    target: &[u8],
    last: bool,
    len: usize,
    size: u64,
) -> Result<Head, NoMemory>
    requires method { IsUtf8 method.now }
    requires target { IsUtf8 target.now }
    requires len { len ≤ HEAD_LIMIT }
    requires short { length target.now ≤ HEAD_LIMIT }
    requires small { size ≤ limit_of target.now }
    ensures { IfOk result (λ h. h ≡ record {
      method = method.now;
      target = target.now;
      last = last;
      len = len;
      size = size;
    }) }
{
    Ok(Head {
        method: text_of(alloc, method)?,
        target: text_of(alloc, target)?,
        last,
        len,
        size: size as usize,
    })
}

fn is_last(minor: u8, buffer: &[u8], headers: &[HeaderSpan]) -> bool
    requires { All (IsHeaderWithin (length buffer.now)) headers.now }
    ensures { result ≡ is_last minor (map (header_bytes buffer.now) headers.now) }
{
    minor == 0 || any_shows(Sign::Close, buffer, headers)
}

/// What a head says that was found in the buffer.
#[tactic(auto, unfolding(crate::specs::Reading::head_of))]
fn head_of(
    alloc: Global,
    buffer: &[u8],
    headers: &[HeaderSpan],
    spans: RequestSpans,
) -> Result<Option<Head>, HttpFault>
    requires method_within { IsWithin (length buffer.now) spans.method }
    requires path_within { IsWithin (length buffer.now) spans.path }
    requires fields { All (IsHeaderWithin (length buffer.now)) headers.now }
    requires method { IsUtf8 (span_bytes buffer.now spans.method) }
    requires target { IsUtf8 (span_bytes buffer.now spans.path) }
    requires len { spans.len ≤ length buffer.now }
    requires short { length buffer.now ≤ HEAD_LIMIT }
    ensures { Answers HttpFault.NoMemory result
        (found (head_of (span_bytes buffer.now spans.method) (span_bytes buffer.now spans.path)
        spans.version (map (header_bytes buffer.now) headers.now) spans.len)) }
{
    let target = spans.path.of(buffer);
    let size = body_len(buffer, headers, limit_of(target))?;
    let last = is_last(spans.version, buffer, headers);
    let head = make(
        alloc,
        spans.method.of(buffer),
        target,
        last,
        spans.len,
        size,
    )?;
    Ok(Some(head))
}

/// The bytes in which a head must be whole.
fn front_of(bytes: &[u8]) -> &[u8]
    ensures front { result.now ≡ take HEAD_LIMIT bytes.now }
    ensures within { length result.now ≤ length bytes.now }
    ensures short { length result.now ≤ HEAD_LIMIT }
{
    if bytes.len() <= HEAD_LIMIT {
        return bytes;
    }
    let (front, _) = bytes.split_at(HEAD_LIMIT);
    front
}

fn first_head(alloc: Global, bytes: &[u8]) -> Result<Option<Head>, HttpFault>
    ensures { result ≢ Err HttpFault.NoMemory → GivesHead bytes.now result }
{
    let front = front_of(bytes);
    let mut headers = [EMPTY_HEADER_SPAN; FIELD_LIMIT];
    match parse_request(front, &mut headers) {
        Ok(Status::Complete(spans)) => {
            let (fields, _) = headers.split_at(spans.headers);
            head_of(alloc, front, fields, spans)
        }
        Ok(Status::Partial) => {
            if HEAD_LIMIT <= bytes.len() {
                return Err(HttpFault::Bad);
            }
            if has_more_lines(front) {
                return Err(HttpFault::Bad);
            }
            Ok(None)
        }
        Err(_) => Err(HttpFault::Bad),
    }
}

/// The head that stands at the front of the bytes: it tells how many bytes its request has in all, so that
/// who gets them in pieces reads on until they are there and parses nothing again. `None` comes exactly where
/// fewer than 16,384 bytes are given, no whole head stands in them and some bytes behind them make a head of
/// at most 64 fields. Heads are those of httparse, which alone says whether bytes that end inside a target
/// can go on.
///
/// `Bad` comes exactly where no head of at most 64 fields can come of the first 16,384 bytes; or where a
/// whole head has a `Transfer-Encoding`, a `Content-Encoding` other than `identity`, more than one
/// `Content-Length`, or one that isn't digits. `Large` comes exactly where none of these holds and the length
/// is above the limit of the path. A refusal changes nothing. An `Expect` is ignored.
pub fn read_head(alloc: Global, bytes: &[u8]) -> Result<Option<Head>, HttpFault>
    ensures gives { result ≢ Err HttpFault.NoMemory → GivesHead bytes.now result }
    ensures within { IfOk result (λ o. IfSome o
        (λ h. (0 < h.len) × (h.len ≤ length bytes.now))) }
    ensures short { IfOk result (λ o. IfNone o (length bytes.now < HEAD_LIMIT)) }
{
    first_head(alloc, bytes)
}

/// The request of a head, where its bytes are there.
fn whole_in(alloc: Global, head: Head, bytes: &[u8]) -> Result<Option<(Request, usize)>, HttpFault>
    ensures { Answers HttpFault.NoMemory result (Ok (whole_in head bytes.now)) }
{
    let total = head.total();
    if bytes.len() < total {
        return Ok(None);
    }
    let request = head.request(alloc, bytes)?;
    Ok(Some((request, total)))
}

fn first_request(alloc: Global, bytes: &[u8]) -> Result<Option<(Request, usize)>, HttpFault>
    ensures { result ≢ Err HttpFault.NoMemory → Gives bytes.now result }
{
    match read_head(alloc, bytes) {
        Ok(Some(head)) => whole_in(alloc, head, bytes),
        Ok(None) => Ok(None),
        Err(fault) => Err(fault),
    }
}

/// The first request that stands at the front of the bytes, and its length. `None` comes exactly in two
/// cases: those of `read_head`; and where a head without fault is whole and its body isn't. `Bad` and `Large`
/// come exactly where `read_head` answers them. A refusal changes nothing.
pub fn read_request(alloc: Global, bytes: &[u8]) -> Result<Option<(Request, usize)>, HttpFault>
    ensures gives { result ≢ Err HttpFault.NoMemory → Gives bytes.now result }
    ensures within { IfOk result (λ o. IfSome o
        (λ x. (0 < x.1) × (x.1 ≤ length bytes.now))) }
    ensures short { IfOk result (λ o. IfNone o
        (length bytes.now < HEAD_LIMIT + WRITE_LIMIT)) }
{
    first_request(alloc, bytes)
}
