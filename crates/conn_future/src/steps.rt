//! The step of a connection over a link that doesn't wait.

ghost use Rattle.std.specs.Prelude.{◌≡◌, ◌+◌, ◌≤◌};
ghost use Rattle.kap_base.specs.Words.{HasRisen};
ghost use Rattle.http_dialog.specs.Driving.{ComesOn, ComesTo, GoesOn};
ghost use Rattle.http_dialog.specs.Numbers.{AddsOnly};
ghost use Rattle.conn_future.specs.Steps.{HasServed, IfEnded, OnGoing, RestsSo, WaitsToRead, WaitsToWrite};

use crate::link_io::{PIECE, fill, flush};
use crate::try_fault::TryFault;
use http_dialog::{Dialog, LinkEnd, Want};
use kap_http::Serve;
use kap_io::{Stop, TryLink};
use std::alloc::Global;

/// How many requests are served in a step at most.
pub const STEP_LIMIT: u32 = 64;

/// How far a step of a connection came.
#[derive(Clone, Copy, Debug, PartialEq, Eq)]
pub enum Step {
    /// To the end of the connection.
    Ended(LinkEnd),
    /// The link would have to wait for bytes. All whole requests are served, and all that is due is written.
    Reads,
    /// The link would have to wait for room.
    Writes,
    /// As many requests are served as a step serves.
    Spent,
}

/// Writes what is due where as many requests are served as a step serves.
fn rest<L: TryLink>(link: &mut L, dialog: &mut Dialog) -> Step
    ensures goes { GoesOn (L.left link.old) (L.left link.new) (L.written link.old)
        (L.written link.new) dialog.old dialog.new }
    ensures left { dialog.new.left ≡ dialog.old.left }
    ensures answer { RestsSo (L.write_faults link.old) (L.write_faults link.new) (L.waits link.old)
        (L.waits link.new) dialog.new result }
{
    match flush(link, dialog) {
        Ok(()) => Step::Spent,
        Err(Stop::Waits) => Step::Writes,
        Err(Stop::Failed) => Step::Ended(LinkEnd::WriteFault),
    }
}

/// Goes on with a connection as far as its link allows without waiting, by at most 64 requests. Its requests
/// are served under its number.
///
/// A step says of the connection what came of it, wherever it came from, so that steps compose, over any
/// number of them, and while others are served. `ReadFault` and `WriteFault` come only where that count of
/// the link rose in this step.
pub fn take_step<L: TryLink, H: Serve>(
    alloc: Global,
    link: &mut L,
    dialog: &mut Dialog,
    number: u32,
    serve: &mut H,
) -> Step
    ensures goes { OnGoing result (ComesOn number (L.left link.old) (L.left link.new)
        (H.served serve.old) (H.served serve.new) (L.written link.old) (L.written link.new)
        dialog.old dialog.new) }
    ensures ends { IfEnded result (λ ending. ComesTo number (L.left link.old) (L.left link.new)
        (H.served serve.old) (H.served serve.new) (L.written link.old) (L.written link.new)
        dialog.old ending) }
    ensures only { AddsOnly number (H.served serve.old) (H.served serve.new) }
    ensures most { dialog.old.left ≤ dialog.new.left + 64 }
    ensures reads { result ≡ Step.Reads → WaitsToRead dialog.new ×
        HasRisen (L.waits link.old) (L.waits link.new) }
    ensures writes { result ≡ Step.Writes → WaitsToWrite dialog.new ×
        HasRisen (L.waits link.old) (L.waits link.new) }
    ensures spent { result ≡ Step.Spent → HasServed 64 dialog.old dialog.new }
    ensures read_cause { result ≡ Step.Ended LinkEnd.ReadFault →
        HasRisen (L.read_faults link.old) (L.read_faults link.new) }
    ensures write_cause { result ≡ Step.Ended LinkEnd.WriteFault →
        HasRisen (L.write_faults link.old) (L.write_faults link.new) }
{
    let mut piece = [0; PIECE];
    let mut budget = STEP_LIMIT;
    'turns: loop {
        match dialog.advance(alloc, number, serve) {
            Want::Served => {
                budget -= 1;
                if budget == 0 {
                    return rest(link, dialog);
                }
            }
            Want::Write => match flush(link, dialog) {
                Ok(()) => {}
                Err(Stop::Waits) => return Step::Writes,
                Err(Stop::Failed) => return Step::Ended(LinkEnd::WriteFault),
            },
            Want::Read => match fill(link, dialog, &mut piece) {
                Ok(()) => {}
                Err(TryFault::Waits) => return Step::Reads,
                Err(TryFault::Failed) => return Step::Ended(LinkEnd::ReadFault),
                Err(TryFault::NoMemory) => return Step::Ended(LinkEnd::NoMemory),
            },
            Want::End(ending) => return Step::Ended(ending.of_link()),
            Want::Memory => return Step::Ended(LinkEnd::NoMemory),
        }
    }
}
