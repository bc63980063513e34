//! An engine is served at an address.

ghost use Rattle.std.specs.Prelude.{◌≡◌, false, IfErr};
ghost use Rattle.serve_words.specs.Options.{AreWithinLimits};
ghost use Rattle.socket_service.specs.Ends.{EndsSeats, EndsSo, EndsThread};

use crate::seats::serve_from_seats;
use crate::single::serve_from_one;
use crate::sockets::Sockets;
use crate::unserved::Unserved;
use kap_service::Engine;
use serve_words::ServeOptions;
use std::alloc::Global;
use std::marker::Brand;
use std::sync::Wait;
use std::sync::ledger::Blank;
use std::thread::Threads;
use std::time::Clock;
use topic_board::Opened;

/// Shares an engine, listens at the address that the options give, and serves the links that come there until
/// no more can be taken: from so many seats as the options say, each in a thread. The engine comes back where
/// it can't be shared, with nothing changed that it keeps: then `DiskFault` comes only where its count of disk
/// faults rose in this call, and `NotStore` never of an engine that was right. Else the service ended by
/// `DoorFault` or `NoMemory`, if by a fault.
pub fn serve_seats<E: Engine + Send, R: Sockets + Threads + Wait + Clock + Eprint + Sync>(
    rt: &R,
    alloc: Global,
    engine: E,
    options: ServeOptions<'_>,
) -> Result<(), Unserved<E>>
    requires unspent { (E.value engine).spent ≡ false }
    requires limits { AreWithinLimits options }
    ensures { IfErr result (λ left.
        EndsSo E.value E.right E.leaves EndsSeats engine left.fault left.engine) }
{
    let parts = u64::from(options.seats) + 1;
    serve_from_seats::<E, Brand, Brand, Brand, R>(
        rt,
        alloc,
        Opened::new(),
        engine,
        Blank::new(parts),
        Blank::new(parts),
        options,
    )
}

/// Shares an engine, listens at the address that the options give, and serves all links that come there in this
/// thread, until no more can be taken or watched. The faults are those of `serve_seats`, and `ReadyFault` where
/// links can't be watched; the engine comes back as there.
pub fn serve_alone<E: Engine, R: Sockets + Wait + Clock + Eprint>(
    rt: &R,
    alloc: Global,
    engine: E,
    options: ServeOptions<'_>,
) -> Result<(), Unserved<E>>
    requires unspent { (E.value engine).spent ≡ false }
    ensures { IfErr result (λ left.
        EndsSo E.value E.right E.leaves EndsThread engine left.fault left.engine) }
{
    serve_from_one::<E, Brand, Brand, Brand, R>(
        rt,
        alloc,
        Opened::new(),
        engine,
        Blank::new(2),
        Blank::new(2),
        options,
    )
}
