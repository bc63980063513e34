//! One thread, which serves all links.

ghost use Rattle.std.specs.Prelude.{◌≡◌, ◌<◌, false, vec_len, IfErr, IfSome, IsTrue};
ghost use Rattle.socket_service.specs.Ends.{EndsSo, EndsThread, fault_at};

use crate::listening::{listen, patience_of};
use crate::sockets::Sockets;
use crate::unserved::{Unserved, ended_by, unshared_by};
use conn_loop::{MioDoor, SingleEnd};
use kap_io::RealClock;
use kap_service::{Engine, Lock, Seat, Since, make_shared, serve_single};
use serve_words::{ServeFault, ServeOptions};
use std::alloc::Global;
use std::io::{self, ErrorKind};
use std::sync::Wait;
use std::sync::ledger::{Blank, Ledger};
use std::time::Clock;
use topic_board::{Naming, Opened, Shown};

/// What a service says where its sockets can't be watched.
fn unwatched(fault: io::Error) -> ServeFault
    ensures { EndsThread result }
{
    if fault.kind() == ErrorKind::OutOfMemory {
        return ServeFault::NoMemory;
    }
    ServeFault::ReadyFault
}

/// What a service says of an end; nothing where no more links come.
fn fault_at(ending: SingleEnd) -> Option<ServeFault>
    ensures fault { result ≡ fault_at ending }
    ensures ends { IfSome result EndsThread }
{
    match ending {
        SingleEnd::Closed => None,
        SingleEnd::Spent => None,
        SingleEnd::ReadyFailed => Some(ServeFault::ReadyFault),
        SingleEnd::DoorFailed => Some(ServeFault::DoorFault),
        SingleEnd::NoMemory => Some(ServeFault::NoMemory),
    }
}

/// Listens, and serves all links from this seat.
fn serve_from<
    E: Engine,
    J: Naming,
    O: Drop,
    T: Shown<J, O>,
    W: Wait + Drop,
    L1: Ledger,
    L2: Since,
    R: Sockets + Wait + Clock + Eprint,
>(
    rt: &R,
    alloc: Global,
    lock: &Lock<E, J, O, T, W, L1, L2>,
    seat: &mut Seat<J, O, T, L1, L2>,
    options: ServeOptions<'_>,
) -> Result<(), ServeFault>
    ensures { IfErr result EndsThread }
{
    let listener = listen(rt, options.addr)?;
    let Ok(mut door) = MioDoor::new(listener, rt, patience_of(options)) else {
        return Err(ServeFault::DoorFault);
    };
    let mut ready = match rt.watch(alloc, &mut door, rt) {
        Ok(ready) => ready,
        Err(fault) => return Err(unwatched(fault)),
    };
    let single = serve_single(
        rt,
        alloc,
        lock,
        seat,
        &mut door,
        &mut ready,
        &RealClock::new(rt),
    );
    match fault_at(single.end) {
        None => Ok(()),
        Some(fault) => Err(fault),
    }
}

/// Shares an engine by this board and these ledgers, and serves all links from one seat, in this thread.
pub(crate) fn serve_from_one<
    'a,
    E: Engine,
    J: Naming,
    L1: Ledger,
    L2: Since,
    R: Sockets + Wait + Clock + Eprint,
>(
    rt: &'a R,
    alloc: Global,
    opened: Opened,
    engine: E,
    first: Blank,
    second: Blank,
    options: ServeOptions<'_>,
) -> Result<(), Unserved<E>>
    requires book { opened ≡ J.book }
    requires unspent { (E.value engine).spent ≡ false }
    requires names { (first.name ≡ L1.name) × (second.name ≡ L2.name) }
    requires parts { (first.parts ≡ L1.parts) × (second.parts ≡ L2.parts) }
    requires more { (1 < first.parts) × (1 < second.parts) }
    requires before { L2.before ≡ (E.value engine).faults }
    requires owned { IsTrue L2.owned → E.right engine }
    ensures { IfErr result (λ left.
        EndsSo E.value E.right E.leaves EndsThread engine left.fault left.engine) }
{
    let (shared, seats) = match make_shared::<E, J, &'a R, L1, L2>(
        rt, alloc, opened, engine, first, second, 1,
    ) {
        Ok(made) => made,
        Err(left) => return Err(unshared_by(left)),
    };
    let mut seats = seats;
    let Some(seat) = seats.first_mut() else {
        return Ok(());
    };
    match serve_from(rt, alloc, shared.lock(), seat, options) {
        Ok(()) => Ok(()),
        Err(fault) => Err(ended_by(fault)),
    }
}
