//! Heads of requests.

ghost use Rattle.std.specs.Prelude.{◌≡◌, ◌≤◌, IfOk, length};
ghost use Rattle.kap_http.specs.Reading.{request_in, total_of};

use crate::request::Request;
use kap_base::{Bytes, NoMemory, Text};
use std::alloc::Global;
use std::marker::Model;

/// The head of a request (RFC 9112), which tells how many bytes the request has. It has at most 16,384 bytes
/// itself, and the body behind it is within the limit of its path, 8 MiB where points are written and 1 MiB
/// elsewhere.
#[derive(Debug, PartialEq, Eq, Drop)]
pub struct Head {
    /// The method, whose letters have their case.
    pub method: Text,
    /// The target, still encoded.
    pub target: Text,
    /// Whether the request is the last one of its connection.
    pub last: bool,
    /// How many bytes the head has, its empty line among them.
    pub len: usize,
    /// How many bytes the body has.
    pub size: usize,
}

impl Model for Head {
    ghost use Rattle.kap_http.specs.HeadValues.{HeadValue, IsHead};

    ghost Value = { HeadValue };

    ghost view = { λ h. record {
      method = h.method;
      target = h.target;
      last = h.last;
      len = h.len;
      size = h.size;
    } };

    ghost inverse = { λ h. record {
      method = h.method;
      target = h.target;
      last = h.last;
      len = h.len;
      size = h.size;
    } };

    ghost invariant = { λ h. IsHead (record {
      method = h.method;
      target = h.target;
      last = h.last;
      len = h.len;
      size = h.size;
    }) };
}

/// A copy of the bytes.
fn bytes_of(alloc: Global, bytes: &[u8]) -> Result<Bytes, NoMemory>
    ensures { IfOk result (λ t. t ≡ bytes.now) }
{
    let mut copy = Bytes::new(alloc);
    copy.append(bytes)?;
    Ok(copy)
}

impl Head {
    /// How many bytes the request has in all, head and body.
    #[tactic(auto, using(crate::proofs::SizeLaws::limit_most))]
    pub fn total(&self) -> usize
        ensures { result ≡ total_of self.now }
    {
        self.len + self.size
    }

    /// The request, of bytes that begin with those the head was read from and go on to the end of its body.
    /// They aren't parsed again.
    pub fn request(self, alloc: Global, bytes: &[u8]) -> Result<Request, NoMemory>
        requires { total_of self ≤ length bytes.now }
        ensures { IfOk result (λ r. r ≡ request_in self bytes.now) }
    {
        let (_, rest) = bytes.split_at(self.len);
        let (body, _) = rest.split_at(self.size);
        let body = bytes_of(alloc, body)?;
        Ok(Request {
            method: self.method,
            target: self.target,
            last: self.last,
            body,
        })
    }
}
