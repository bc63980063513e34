//! A connection that is polled.

ghost use Rattle.std.specs.Prelude.{◌≡◌, ◌+◌, ◌≤◌, List, Option};
ghost use Rattle.futures.specs.Poll.{IfReady, OnPending};
ghost use Rattle.futures.specs.Task.{IsArmed, Keeps as KeepsTask};
ghost use Rattle.kap_base.specs.Words.{HasRisen};
ghost use Rattle.kap_http.specs.Calls.{Call};
ghost use Rattle.http_dialog.specs.Dialogs.{fresh};
ghost use Rattle.http_dialog.specs.Driving.{ComesOn, ComesTo};
ghost use Rattle.http_dialog.specs.Links.{Goes};
ghost use Rattle.http_dialog.specs.Numbers.{AddsOnly};
ghost use Rattle.conn_future.specs.Polls.{IsPending};

use crate::steps::{Step, take_step};
use futures::task::{Context, Poll};
use http_dialog::{Dialog, LinkEnd};
use kap_http::Serve;
use kap_io::PollLink;
use std::alloc::Global;

/// A connection with its link and its number, and where it stands.
#[derive(Drop)]
pub struct Conn<L: PollLink + Drop> {
    /// The link.
    pub link: L,
    /// The number under which its requests are served.
    pub number: u32,
    /// What it holds.
    pub dialog: Dialog,
}

impl<L: PollLink + Drop> Conn<L> {
    /// A connection that has read nothing. It takes no memory.
    pub fn new(alloc: Global, link: L, number: u32) -> Conn<L>
        ensures link { result.link ≡ link }
        ensures number { result.number ≡ number }
        ensures fresh { result.dialog ≡ fresh }
        ensures goes { (s : Option (List Call)) →
            Goes number (L.left link) (L.left link) s s (L.written link) (L.written link) result.dialog }
    {
        Conn {
            link,
            number,
            dialog: Dialog::new(alloc),
        }
    }

    /// Goes on as far as the link allows, by at most 64 requests: the end, or `Pending`, which comes only
    /// where the link would have had to wait in this poll, or where 64 requests were served. The task is
    /// woken then, where the link may go on or at once. Behind its end a connection isn't polled again.
    ///
    /// A poll says of the connection what came of it, wherever it came from, so that polls compose, over any
    /// number of them, and while others are polled with the same `Serve`. `ReadFault` and `WriteFault` come
    /// only where that count of the link rose in this poll.
    pub fn poll<H: Serve>(
        &mut self,
        alloc: Global,
        cx: &mut Context<'_>,
        serve: &mut H,
    ) -> Poll<LinkEnd>
        ensures pending { OnPending result (ComesOn self.old.number (L.left self.old.link)
            (L.left self.new.link) (H.served serve.old) (H.served serve.new)
            (L.written self.old.link) (L.written self.new.link) self.old.dialog self.new.dialog) }
        ensures ends { IfReady result (λ ending. ComesTo self.old.number (L.left self.old.link)
            (L.left self.new.link) (H.served serve.old) (H.served serve.new)
            (L.written self.old.link) (L.written self.new.link) self.old.dialog ending) }
        ensures only { AddsOnly self.old.number (H.served serve.old) (H.served serve.new) }
        ensures number { self.new.number ≡ self.old.number }
        ensures most { self.old.dialog.left ≤ self.new.dialog.left + 64 }
        ensures why { OnPending result (IsPending (L.waits self.old.link) (L.waits self.new.link)
            self.old.dialog self.new.dialog) }
        ensures read_cause { result ≡ Poll.Ready LinkEnd.ReadFault →
            HasRisen (L.read_faults self.old.link) (L.read_faults self.new.link) }
        ensures write_cause { result ≡ Poll.Ready LinkEnd.WriteFault →
            HasRisen (L.write_faults self.old.link) (L.write_faults self.new.link) }
        ensures armed { OnPending result (IsArmed cx.new) }
        ensures task { KeepsTask cx.old cx.new }
    {
        match take_step(alloc, &mut self.link, &mut self.dialog, self.number, serve) {
            Step::Ended(ending) => Poll::Ready(ending),
            Step::Spent => cx.yield_now(),
            Step::Reads => {
                self.link.register(cx);
                Poll::Pending
            }
            Step::Writes => {
                self.link.register(cx);
                Poll::Pending
            }
        }
    }

    /// The link.
    pub fn link(&self) -> &L
        ensures { result.now ≡ self.now.link }
    {
        &self.link
    }

    /// The link, taken out.
    pub fn into_link(self) -> L
        ensures { result ≡ self.link }
    {
        self.link
    }
}
