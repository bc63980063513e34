//! What answers the requests of the tests, and what they ask.

ghost use Rattle.std.specs.Prelude.{None};

use kap_base::{Bytes, NoMemory};
use kap_http::{Reply, Request, Serve};
use std::alloc::{AllocError, Global};

/// Answers each request, by a 204 or by a 200 with a body, and counts them.
#[derive(Drop)]
pub(crate) struct Pings {
    pub(crate) served: u32,
    /// How many times 4 KiB the body has; at 0 there is none.
    pub(crate) pieces: u32,
}

/// What answers by a 204.
pub(crate) fn bare_pings() -> Pings {
    Pings {
        served: 0,
        pieces: 0,
    }
}

/// So many times 4 KiB.
fn body_of(alloc: Global, pieces: u32) -> Result<Bytes, NoMemory> {
    let mut body = Bytes::new(alloc);
    for _ in 0..pieces {
        body.append(&[b' '; 4_096])?;
    }
    Ok(body)
}

/// A reply with this body, where there was memory for it.
fn reply_with(alloc: Global, body: Result<Bytes, NoMemory>) -> Reply {
    match body {
        Ok(body) => Reply {
            status: 200,
            body,
            last: false,
        },
        Err(NoMemory) => Reply {
            status: 503,
            body: Bytes::new(alloc),
            last: false,
        },
    }
}

impl Serve for Pings {
    ghost served = { λ _. None };

    fn serve(&mut self, alloc: Global, _number: u32, _request: &Request) -> Reply {
        self.served = self.served.saturating_add(1);
        if 0 < self.pieces {
            return reply_with(alloc, body_of(alloc, self.pieces));
        }
        Reply {
            status: 204,
            body: Bytes::new(alloc),
            last: false,
        }
    }
}

/// The request that is sent most.
pub(crate) const PING: &[u8] = b"GET /kapacitor/v1/ping HTTP/1.1\r\n\r\n";

/// So many of them.
pub(crate) fn pings_of(alloc: Global, count: u32) -> Result<Vec<u8>, AllocError> {
    let mut all = Vec::new(alloc);
    for _ in 0..count {
        all.extend_from_slice(PING)?;
    }
    Ok(all)
}
