use kap_base::{Bytes, Text};
use std::marker::Model;

/// A request (RFC 9112). Its body is within the limit of its path, 8 MiB where points are written and 1 MiB
/// elsewhere, and its target has at most 16,384 bytes.
#[derive(Debug, PartialEq, Eq, Drop)]
pub struct Request {
    /// The method, whose letters have their case.
    pub method: Text,
    /// The target, still encoded.
    pub target: Text,
    /// Whether it is the last one of its connection: it is of HTTP/1.0, or says `Connection: close`.
    pub last: bool,
    /// The body.
    pub body: Bytes,
}

impl Model for Request {
    ghost use Rattle.kap_http.specs.RequestValues.{RequestValue, IsRequest};

    ghost Value = { RequestValue };

    ghost view = { λ r. record {
      method = r.method;
      target = r.target;
      last = r.last;
      body = r.body;
    } };

    ghost inverse = { λ r. record {
      method = r.method;
      target = r.target;
      last = r.last;
      body = r.body;
    } };

    ghost invariant = { λ r. IsRequest (record {
      method = r.method;
      target = r.target;
      last = r.last;
      body = r.body;
    }) };
}
