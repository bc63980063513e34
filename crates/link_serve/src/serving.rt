//! The serving of a link.

ghost use Rattle.std.specs.Prelude.{◌≡◌};
ghost use Rattle.kap_base.specs.Words.{HasRisen};
ghost use Rattle.http_dialog.specs.Links.{Connected};
ghost use Rattle.http_dialog.specs.Numbers.{AddsOnly};

use crate::fill_fault::FillFault;
use crate::link_io::{PIECE, fill, flush};
use http_dialog::{Dialog, LinkEnd, Want};
use kap_http::Serve;
use kap_io::{Failed, Link};
use std::alloc::Global;

/// Serves one connection, with the number 0, and answers how it ended. The requests of the bytes that are
/// read are each answered once and in order, and their replies are written, then the 400 or 413 where one is
/// due; requests that came together are answered before the next read, and their replies are written
/// together. Where reading failed, or memory ran out, the first requests were answered and their replies
/// written; where writing failed, a front of what is due was written.
///
/// `ReadFault` and `WriteFault` come only where that count of the link rose in this call.
pub fn serve_link<L: Link, H: Serve>(alloc: Global, link: &mut L, serve: &mut H) -> LinkEnd
    ensures connected { Connected 0 (L.left link.old) (L.left link.new) (H.served serve.old)
        (H.served serve.new) (L.written link.old) (L.written link.new) result }
    ensures only { AddsOnly 0 (H.served serve.old) (H.served serve.new) }
    ensures read_cause { result ≡ LinkEnd.ReadFault →
        HasRisen (L.read_faults link.old) (L.read_faults link.new) }
    ensures write_cause { result ≡ LinkEnd.WriteFault →
        HasRisen (L.write_faults link.old) (L.write_faults link.new) }
{
    let mut dialog = Dialog::new(alloc);
    let mut piece = [0; PIECE];
    'turns: loop {
        match dialog.advance(alloc, 0, serve) {
            Want::Served => {}
            Want::Write => match flush(link, &mut dialog) {
                Ok(()) => {}
                Err(Failed) => return LinkEnd::WriteFault,
            },
            Want::Read => match fill(link, &mut dialog, &mut piece) {
                Ok(()) => {}
                Err(FillFault::Failed) => return LinkEnd::ReadFault,
                Err(FillFault::NoMemory) => return LinkEnd::NoMemory,
            },
            Want::End(ending) => return ending.of_link(),
            Want::Memory => return LinkEnd::NoMemory,
        }
    }
}
