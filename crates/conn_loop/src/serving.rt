//! Serving at a door, all links on one thread.

ghost use Rattle.std.specs.Prelude.{◌≡◌, ◌+◌, ◌≤◌, false, OnOk};
ghost use Rattle.kap_base.specs.Words.{HasRisen};
ghost use Rattle.conn_loop.specs.Loops.{IsFull};
ghost use Rattle.conn_loop.specs.Serving.{HaveCome, IsClosed, MayFail, ServesOn};

use crate::finished::{AddFault, Finished};
use crate::link_loop::{LINKS, Loop};
use crate::ready::Ready;
use crate::single::{Single, SingleEnd};
use crate::try_door::TryDoor;
use kap_base::NoMemory;
use kap_http::Serve;
use kap_io::{Failed, Stop, TryLink};
use std::alloc::Global;
use std::sync::Wait;

/// How far serving has come.
#[derive(Drop)]
struct Serving<L> {
    /// The open links.
    open: Loop<L>,
    /// How many links came.
    links: u64,
    /// Whether no more come.
    closed: bool,
}

/// Has a link that came watched, and adds it to those that are held.
fn admit<L: TryLink + Drop, Y: Ready<L>>(
    alloc: Global,
    held: &mut Loop<L>,
    ready: &mut Y,
    link: L,
) -> Result<(), SingleEnd>
    requires room { IsFull held.old → ⊥ }
    ensures added { OnOk result (held.new.added ≡ held.old.added + 1) }
    ensures cause { MayFail (Y.faults ready.old) (Y.faults ready.new) result }
{
    let mut link = link;
    if let Err(Failed) = ready.watch(&mut link, held.added()) {
        return Err(SingleEnd::ReadyFailed);
    }
    match held.add(alloc, link) {
        Ok(_) => Ok(()),
        Err(AddFault::Full(_)) => unreachable!(),
        Err(AddFault::NoMemory(_)) => Err(SingleEnd::NoMemory),
    }
}

/// Takes the next link at the door, and adds it; `false` where none comes now.
fn accept<L: TryLink + Drop, B: TryDoor<L>, Y: Ready<L>>(
    alloc: Global,
    serving: &mut Serving<L>,
    door: &mut B,
    ready: &mut Y,
) -> Result<bool, SingleEnd>
    requires room { IsFull serving.old.open → ⊥ }
    requires counted { serving.old.links ≡ serving.old.open.added }
    requires opened { serving.old.closed ≡ false }
    ensures { ServesOn (B.left door.old) (B.left door.new) (B.faults door.old) (B.faults door.new)
        (Y.faults ready.old) (Y.faults ready.new) serving.old serving.new result }
{
    match door.try_accept() {
        Ok(Some(link)) => {
            serving.links = u64::from(serving.open.added()) + 1;
            match admit(alloc, &mut serving.open, ready, link) {
                Ok(()) => Ok(true),
                Err(end) => Err(end),
            }
        }
        Ok(None) => {
            serving.closed = true;
            Ok(false)
        }
        Err(Stop::Waits) => Ok(false),
        Err(Stop::Failed) => Err(SingleEnd::DoorFailed),
    }
}

/// Takes the links that come now, as far as there is room for them.
fn accept_all<L: TryLink + Drop, B: TryDoor<L>, Y: Ready<L>>(
    alloc: Global,
    serving: &mut Serving<L>,
    door: &mut B,
    ready: &mut Y,
) -> Result<(), SingleEnd>
    requires counted { serving.old.links ≡ serving.old.open.added }
    ensures { ServesOn (B.left door.old) (B.left door.new) (B.faults door.old) (B.faults door.new)
        (Y.faults ready.old) (Y.faults ready.new) serving.old serving.new result }
{
    'accepting: for _ in 0..LINKS {
        if serving.closed || serving.open.is_full() {
            return Ok(());
        }
        if !accept(alloc, serving, door, ready)? {
            return Ok(());
        }
    }
    Ok(())
}

/// Hands over the links that have ended.
fn release<L: TryLink + Drop, Y: Ready<L>>(ready: &mut Y, finished: Vec<Finished<L>>)
    ensures { Y.faults ready.old ≤ Y.faults ready.new }
{
    'releasing: for done in finished {
        ready.release(done.number, done.link);
    }
}

/// Waits for links that may go on, and polls them.
fn go_on<L: TryLink + Drop, Y: Ready<L>, H: Serve>(
    alloc: Global,
    held: &mut Loop<L>,
    ready: &mut Y,
    serve: &mut H,
) -> Result<(), SingleEnd>
    ensures added { held.new.added ≡ held.old.added }
    ensures cause { MayFail (Y.faults ready.old) (Y.faults ready.new) result }
{
    if let Err(Failed) = ready.wait(held.woken()) {
        return Err(SingleEnd::ReadyFailed);
    }
    match held.turn(alloc, ready.numbers(), serve) {
        Ok(finished) => {
            release(ready, finished);
            Ok(())
        }
        Err(NoMemory) => Err(SingleEnd::NoMemory),
    }
}

/// Takes the links that come now, and polls those that may go on. It says that serving is closed, or that all
/// numbers are given, only where no link is open.
fn serve_once<L: TryLink + Drop, B: TryDoor<L>, Y: Ready<L>, H: Serve>(
    alloc: Global,
    serving: &mut Serving<L>,
    door: &mut B,
    ready: &mut Y,
    serve: &mut H,
) -> Result<(), SingleEnd>
    requires counted { serving.old.links ≡ serving.old.open.added }
    ensures { ServesOn (B.left door.old) (B.left door.new) (B.faults door.old) (B.faults door.new)
        (Y.faults ready.old) (Y.faults ready.new) serving.old serving.new result }
{
    accept_all(alloc, serving, door, ready)?;
    if serving.open.links() == 0 {
        if serving.closed {
            return Err(SingleEnd::Closed);
        }
        if serving.open.added() == u32::MAX {
            return Err(SingleEnd::Spent);
        }
    }
    go_on(alloc, &mut serving.open, ready, serve)
}

/// Serves at a door, all links on one thread, 1,024 at once at most: those that `ready` tells are polled.
/// Each link is served under a number of its own, as `Loop` says.
///
/// `links` is how many links the door gave in this call. `Closed` comes where no more come and none is open,
/// and then a door that tells has none left; `Spent` where as many came as there are numbers, and none is
/// open. `ReadyFailed` and `DoorFailed` come only where that count of faults rose in this call.
pub fn serve_door<L: TryLink + Drop, B: TryDoor<L>, Y: Ready<L>, H: Serve>(
    rt: &impl Wait,
    alloc: Global,
    door: &mut B,
    ready: &mut Y,
    serve: &mut H,
) -> Single
    ensures links { HaveCome (B.left door.old) (B.left door.new) result.links }
    ensures closed { result.«end» ≡ SingleEnd.Closed →
        IsClosed (B.left door.old) (B.left door.new) }
    ensures spent { result.«end» ≡ SingleEnd.Spent → result.links ≡ 4294967295 }
    ensures ready { result.«end» ≡ SingleEnd.ReadyFailed →
        HasRisen (Y.faults ready.old) (Y.faults ready.new) }
    ensures door { result.«end» ≡ SingleEnd.DoorFailed →
        HasRisen (B.faults door.old) (B.faults door.new) }
{
    let mut serving = Serving {
        open: Loop::new(alloc, LINKS),
        links: 0,
        closed: false,
    };
    'serving: for _ in rt.forever() {
        if let Err(end) = serve_once(alloc, &mut serving, door, ready, serve) {
            return Single {
                links: serving.links,
                end,
            };
        }
    }
    unreachable!()
}
