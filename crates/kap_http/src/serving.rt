//! What answers requests.

ghost use Rattle.std.specs.Prelude.{List, Option};
ghost use Rattle.kap_http.specs.Calls.{AddsCall, Call};

use crate::reply::Reply;
use crate::request::Request;
use std::alloc::Global;

/// What answers requests.
pub trait Serve {
    /// The number, the request and the reply of each call so far, where it tells them.
    ghost served: { Self → Option (List Call) };

    /// The reply to a request of the connection with this number.
    fn serve(&mut self, alloc: Global, number: u32, request: &Request) -> Reply
        ensures served { AddsCall (served self.old) (served self.new) number request.now result };
}
