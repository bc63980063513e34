//! Many links served from one seat, on one thread.

ghost use Rattle.std.specs.Prelude.{◌≡◌};
ghost use Rattle.kap_base.specs.Words.{HasRisen};
ghost use Rattle.conn_loop.specs.Serving.{HaveCome, IsClosed};

use crate::desk::Desk;
use crate::engine::Engine;
use crate::seat::Seat;
use crate::shared::Lock;
use crate::state::Since;
use conn_loop::{Ready, Single, SingleEnd, TryDoor, serve_door};
use kap_io::{Clock, TryLink};
use std::alloc::Global;
use std::sync::Wait;
use std::sync::ledger::Ledger;
use topic_board::{Naming, Shown};

/// Serves at a door from one seat, all links on one thread, 1,024 at once at most, those of them that `ready`
/// tells. All links are served by a desk of the seat, each under a number of its own.
///
/// `links` is how many links the door gave in this call. `Closed` comes where no more come and none is open,
/// and then a door that tells has none left; `Spent` where as many came as there are numbers, and none is
/// open. `ReadyFailed` and `DoorFailed` come only where that count of faults rose in this call.
pub fn serve_single<
    L: TryLink + Drop,
    B: TryDoor<L>,
    Y: Ready<L>,
    E: Engine,
    J: Naming,
    O: Drop,
    T: Shown<J, O>,
    R: Wait + Drop,
    L1: Ledger,
    L2: Since,
>(
    rt: &impl Wait,
    alloc: Global,
    lock: &Lock<E, J, O, T, R, L1, L2>,
    seat: &mut Seat<J, O, T, L1, L2>,
    door: &mut B,
    ready: &mut Y,
    clock: &impl Clock,
) -> Single
    ensures links { HaveCome (B.left door.old) (B.left door.new) result.links }
    ensures closed { result.«end» ≡ SingleEnd.Closed → IsClosed (B.left door.old) (B.left door.new) }
    ensures spent { result.«end» ≡ SingleEnd.Spent → result.links ≡ 4294967295 }
    ensures ready { result.«end» ≡ SingleEnd.ReadyFailed →
        HasRisen (Y.faults ready.old) (Y.faults ready.new) }
    ensures door { result.«end» ≡ SingleEnd.DoorFailed →
        HasRisen (B.faults door.old) (B.faults door.new) }
{
    let mut desk = Desk {
        rt,
        lock,
        seat,
        clock,
    };
    serve_door(rt, alloc, door, ready, &mut desk)
}
