//! The connection as a future.

ghost use Rattle.conn_future.specs.Polls.{MayEndSo};

use crate::conn::Conn;
use futures::Future;
use futures::task::{Context, Poll};
use http_dialog::LinkEnd;
use kap_http::Serve;
use kap_io::PollLink;
use std::alloc::Global;

/// A connection and what answers its requests, as a future that gives the connection's end.
#[derive(Drop)]
pub struct Talk<'a, L: PollLink + Drop, H: Serve> {
    /// Where what is due finds memory.
    pub alloc: Global,
    /// The connection.
    pub conn: &'a mut Conn<L>,
    /// What answers its requests.
    pub serve: &'a mut H,
}

impl<'a, L: PollLink + Drop, H: Serve> Future for Talk<'a, L, H> {
    type Output = LinkEnd;

    ghost gives = { λ t ending. MayEndSo t.conn.now.number (L.left t.conn.now.link)
        (H.served t.serve.now) (L.written t.conn.now.link) t.conn.now.dialog ending };

    fn poll(&mut self, cx: &mut Context<'_>) -> Poll<LinkEnd> {
        self.conn.poll(self.alloc, cx, self.serve)
    }
}
