//! Seats in threads, each of which serves one link at a time.

ghost use Rattle.std.specs.Prelude.{◌≡◌, ◌<◌, false, vec_len, IfErr, IfOk, IsTrue};
ghost use Rattle.serve_words.specs.Options.{AreWithinLimits};
ghost use Rattle.socket_service.specs.Ends.{EndsSeats, EndsSo};

use crate::listening::{listen, patience_of};
use crate::sockets::Sockets;
use crate::unserved::{Unserved, ended_by, unshared_by};
use kap_io::{Patience, RealClock, SocketDoor, SocketLink};
use kap_service::{Engine, Lock, Post, Seat, Since, make_shared, serve};
use serve_words::{ServeFault, ServeOptions};
use std::alloc::Global;
use std::net::{TcpListener, TcpStream};
use std::sync::Wait;
use std::sync::ledger::{Blank, Ledger};
use std::thread::Threads;
use std::time::Clock;
use topic_board::{Naming, Opened, Shown};

/// A post for each seat, each with a handle of the listener.
fn posts_of<'a, J: Naming, O: Drop, T: Shown<J, O>, L1: Ledger, L2: Ledger, R: Clock>(
    rt: &'a R,
    alloc: Global,
    seats: Vec<Seat<J, O, T, L1, L2>>,
    listener: &TcpListener,
    patience: Patience,
) -> Result<Vec<Post<SocketDoor<TcpListener, &'a R>, J, O, T, L1, L2>>, ServeFault>
    ensures posts { IfOk result (λ posts. vec_len posts ≡ vec_len seats) }
    ensures fault { IfErr result EndsSeats }
{
    let mut posts = Vec::new(alloc);
    'posts: for seat in seats {
        let Ok(handle) = listener.try_clone() else {
            return Err(ServeFault::DoorFault);
        };
        let post = Post {
            seat,
            door: SocketDoor::new(handle, rt, patience),
            links: 0,
            failed: false,
        };
        match posts.push(post) {
            Ok(()) => {}
            Err(_) => return Err(ServeFault::NoMemory),
        }
    }
    Ok(posts)
}

/// Listens, and serves from these seats, each in a thread, until a door fails.
fn serve_from<
    'a,
    E: Engine + Send,
    J: Naming + Send + Sync,
    O: Drop + Send + Sync,
    T: Shown<J, O> + Send + Sync,
    W: Wait + Drop + Send + Sync,
    L1: Ledger + Send + Sync,
    L2: Since + Send + Sync,
    R: Sockets + Threads + Wait + Clock + Eprint + Sync,
>(
    rt: &'a R,
    alloc: Global,
    lock: &Lock<E, J, O, T, W, L1, L2>,
    seats: Vec<Seat<J, O, T, L1, L2>>,
    options: ServeOptions<'_>,
) -> Result<(), ServeFault>
    requires some { 0 < vec_len seats }
    ensures { IfErr result EndsSeats }
{
    let listener = listen(rt, options.addr)?;
    let mut posts = posts_of(rt, alloc, seats, &listener, patience_of(options))?;
    let served = serve::<
        SocketLink<TcpStream, &'a R>,
        SocketDoor<TcpListener, &'a R>,
        E,
        J,
        O,
        T,
        W,
        L1,
        L2,
        RealClock<&'a R>,
        R,
    >(rt, alloc, lock, posts.as_mut_slice(), &RealClock::new(rt));
    if served.door_failed {
        return Err(ServeFault::DoorFault);
    }
    Ok(())
}

/// Shares an engine by this board and these ledgers, and serves from so many seats as the options say, each in
/// a thread.
pub(crate) fn serve_from_seats<
    'a,
    E: Engine + Send,
    J: Naming + Send + Sync,
    L1: Ledger + Send + Sync,
    L2: Since + Send + Sync,
    R: Sockets + Threads + Wait + Clock + Eprint + Sync,
>(
    rt: &'a R,
    alloc: Global,
    opened: Opened,
    engine: E,
    first: Blank,
    second: Blank,
    options: ServeOptions<'_>,
) -> Result<(), Unserved<E>>
    requires book { opened ≡ J.book }
    requires unspent { (E.value engine).spent ≡ false }
    requires limits { AreWithinLimits options }
    requires names { (first.name ≡ L1.name) × (second.name ≡ L2.name) }
    requires parts { (first.parts ≡ L1.parts) × (second.parts ≡ L2.parts) }
    requires more { (options.seats < first.parts) × (options.seats < second.parts) }
    requires before { L2.before ≡ (E.value engine).faults }
    requires owned { IsTrue L2.owned → E.right engine }
    ensures { IfErr result (λ left.
        EndsSo E.value E.right E.leaves EndsSeats engine left.fault left.engine) }
{
    let (shared, seats) = match make_shared::<E, J, &'a R, L1, L2>(
        rt,
        alloc,
        opened,
        engine,
        first,
        second,
        options.seats,
    ) {
        Ok(made) => made,
        Err(left) => return Err(unshared_by(left)),
    };
    match serve_from(rt, alloc, shared.lock(), seats, options) {
        Ok(()) => Ok(()),
        Err(fault) => Err(ended_by(fault)),
    }
}
