//! A turn over the open links.

ghost use Rattle.std.specs.Prelude.{◌≡◌, ◌+◌, ◌≤◌, ◌<◌, [], IfNone, IfSome, vec_capacity, vec_len};
ghost use Rattle.std.specs.List.Sorted.{IsNonDecreasing};
ghost use Rattle.std.specs.VecDeque.{deque_len};
ghost use Rattle.http_dialog.specs.Numbers.{AddsOnly};
ghost use Rattle.conn_loop.specs.Links.{telling};
ghost use Rattle.conn_loop.specs.Loops.{AreRising, is_due};
ghost use Rattle.conn_loop.specs.Passes.{EndsSo, GoesSo, IsPassed};
ghost use Rattle.conn_loop.specs.Turns.{AddsAmong, Turned};

use crate::finished::Finished;
use crate::numbers::is_among;
use crate::slot::Slot;
use conn_future::{Step, take_step};
use http_dialog::LinkEnd;
use kap_http::Serve;
use kap_io::TryLink;
use std::alloc::Global;
use std::collections::VecDeque;

/// Whether the link is polled in a turn of these numbers, which are in order.
fn is_due<L>(slot: &Slot<L>, ready: &[u32]) -> bool
    requires { IsNonDecreasing ready.now }
    ensures { result ≡ is_due ready.now slot.now }
{
    slot.woken || is_among(ready, slot.number)
}

/// Polls a link, and answers how it has ended, if it has.
fn poll<L: TryLink, H: Serve>(alloc: Global, slot: &mut Slot<L>, serve: &mut H) -> Option<LinkEnd>
    ensures goes { IfNone result (GoesSo
        (telling L.left L.written L.read_faults L.write_faults L.waits)
        (H.served serve.old) (H.served serve.new) slot.old slot.new) }
    ensures ends { IfSome result (λ ending. EndsSo
        (telling L.left L.written L.read_faults L.write_faults L.waits)
        (H.served serve.old) (H.served serve.new) slot.old slot.new ending) }
    ensures only { AddsOnly slot.old.number (H.served serve.old) (H.served serve.new) }
    ensures number { slot.new.number ≡ slot.old.number }
{
    match take_step(alloc, &mut slot.link, &mut slot.dialog, slot.number, serve) {
        Step::Ended(ending) => return Some(ending),
        Step::Spent => slot.woken = true,
        Step::Reads => slot.woken = false,
        Step::Writes => slot.woken = false,
    }
    None
}

/// Takes the first of the open links, polls it where it is due, and puts it behind the others, or adds it to
/// those that have ended. There is room for it.
fn pass_first<L: TryLink + Drop, H: Serve>(
    alloc: Global,
    slots: &mut VecDeque<Slot<L>>,
    ready: &[u32],
    serve: &mut H,
    finished: &mut Vec<Finished<L>>,
)
    requires some { 0 < deque_len slots.old }
    requires sorted { IsNonDecreasing ready.now }
    requires room { vec_len finished.old < vec_capacity finished.old }
    ensures passed { IsPassed
        (telling L.left L.written L.read_faults L.write_faults L.waits) ready.now
        (H.served serve.old) (H.served serve.new) slots.old.items slots.new.items
        finished.old.items finished.new.items }
    ensures len { vec_len finished.new ≤ vec_len finished.old + 1 }
    ensures capacity { vec_capacity finished.new ≡ vec_capacity finished.old }
    ensures left { deque_len slots.old ≤ deque_len slots.new + 1 }
{
    let Some(mut slot) = slots.pop_front() else {
        unreachable!();
    };
    if !is_due(&slot, ready) {
        slots.push_back_reserved(slot);
        return;
    }
    match poll(alloc, &mut slot, serve) {
        None => slots.push_back_reserved(slot),
        Some(end) => finished.push_reserved(finished_of(slot, end)),
    }
}

/// The link as one that has ended.
fn finished_of<L: Drop>(slot: Slot<L>, end: LinkEnd) -> Finished<L>
    ensures number { result.number ≡ slot.number }
    ensures link { result.link ≡ slot.link }
    ensures ending { result.«end» ≡ end }
{
    Finished {
        number: slot.number,
        end,
        link: slot.link,
    }
}

/// Polls each open link that is due, once and in order. Those that have ended are taken out, in that order.
pub(crate) fn pass<L: TryLink + Drop, H: Serve>(
    alloc: Global,
    slots: &mut VecDeque<Slot<L>>,
    ready: &[u32],
    serve: &mut H,
    finished: &mut Vec<Finished<L>>,
)
    requires rising { AreRising slots.old.items }
    requires sorted { IsNonDecreasing ready.now }
    requires none { finished.old.items ≡ [] }
    requires room { deque_len slots.old ≤ vec_capacity finished.old }
    ensures turned { Turned (telling L.left L.written L.read_faults L.write_faults L.waits)
        ready.now (H.served serve.old) (H.served serve.new) slots.old.items slots.new.items
        finished.new.items }
    ensures only { AddsAmong slots.old.items (H.served serve.old) (H.served serve.new) }
{
    let mut left = slots.len();
    'passing: while 0 < left {
        pass_first(alloc, slots, ready, serve, finished);
        left -= 1;
    }
}
