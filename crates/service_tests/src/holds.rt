//! A seat reads topics while the thread of another seat holds the lock.

ghost use Rattle.std.specs.Prelude.{◌≡◌, ◌<◌, false};

use crate::asks::{answered, ask_of, reads};
use crate::disks::{WRITE, engine_on, new_disk};
use crate::held_disk::{HeldDisk, Hold};
use kap_base::NoMemory;
use kap_http::Ask;
use kap_io::Disk;
use kap_service::{Engine, Lock, Seat, Since, make_shared};
use std::alloc::Global;
use std::marker::Brand;
use std::process::Abort;
use std::sync::ledger::{Blank, Ledger};
use std::sync::{Barrier, Wait};
use std::test::Fail;
use std::thread::{Threads, join};
use topic_board::{Naming, Opened, Shown};

/// Reads once the lock is held, and lets the one who holds it go on then.
fn read_held<J: Naming, O: Drop, T: Shown<J, O>, L1: Ledger, L2: Since>(
    rt: &impl Wait,
    alloc: Global,
    seat: &mut Seat<J, O, T, L1, L2>,
    came: &Barrier,
    goes: &Barrier,
) -> bool {
    came.wait(rt);
    let read = reads(alloc, seat, "{\"topics\":[]}");
    goes.wait(rt);
    read
}

/// Whether the one seat's write is done, and the other one reads in the midst of it.
fn both<
    E: Engine + Send,
    J: Naming + Send + Sync,
    O: Drop + Send + Sync,
    T: Shown<J, O> + Send + Sync,
    R: Wait + Drop + Send + Sync,
    L1: Ledger + Send + Sync,
    L2: Since + Send + Sync,
    W: Threads + Wait + Sync,
>(
    rt: &W,
    alloc: Global,
    lock: &Lock<E, J, O, T, R, L1, L2>,
    seats: (Seat<J, O, T, L1, L2>, Seat<J, O, T, L1, L2>),
    ask: &Ask,
    barriers: (&Barrier, &Barrier),
) -> bool {
    let (one, other) = seats;
    let (came, goes) = barriers;
    let mut one = one;
    let mut other = other;
    let (status, read) = join(
        rt,
        move || answered(rt, alloc, lock, &mut one, ask),
        move || read_held(rt, alloc, &mut other, came, goes),
    );
    status == 204 && read
}

/// The same with two seats of this engine.
fn held_by<
    E: Engine + Send,
    J: Naming + Send + Sync,
    L1: Ledger + Send + Sync,
    L2: Since + Send + Sync,
    R: Threads + Wait + Sync,
>(
    rt: &R,
    alloc: Global,
    opened: Opened,
    first: Blank,
    second: Blank,
    engine: E,
    ask: &Ask,
    barriers: (&Barrier, &Barrier),
) -> Result<bool, NoMemory>
    requires book { opened ≡ J.book }
    requires unspent { (E.value engine).spent ≡ false }
    requires names { (first.name ≡ L1.name) × (second.name ≡ L2.name) }
    requires parts { (first.parts ≡ L1.parts) × (second.parts ≡ L2.parts) }
    requires more { (2 < first.parts) × (2 < second.parts) }
    requires before { L2.before ≡ (E.value engine).faults }
    requires unowned { L2.owned ≡ false }
{
    let made = make_shared::<E, J, &R, L1, L2>(rt, alloc, opened, engine, first, second, 2);
    let Ok((shared, seats)) = made else {
        return Err(NoMemory);
    };
    let mut seats = seats;
    let (Some(other), Some(one)) = (seats.pop(), seats.pop()) else {
        return Ok(false);
    };
    Ok(both(rt, alloc, shared.lock(), (one, other), ask, barriers))
}

/// The same on a board and with ledgers of its own.
fn held<E: Engine + Send, R: Threads + Wait + Sync>(
    rt: &R,
    alloc: Global,
    engine: E,
    ask: &Ask,
    barriers: (&Barrier, &Barrier),
) -> Result<bool, NoMemory>
    requires unspent { (E.value engine).spent ≡ false }
{
    let (first, second) = (Blank::new(3), Blank::new(3));
    held_by::<E, Brand, Brand, Brand, R>(
        rt,
        alloc,
        Opened::new(),
        first,
        second,
        engine,
        ask,
        barriers,
    )
}

/// The same of an engine on this disk, of which a point is written.
fn held_on<D: Disk + Drop + Send, R: Threads + Wait + Send + Sync>(
    rt: &R,
    alloc: Global,
    disk: D,
    barriers: (&Barrier, &Barrier),
) -> Result<bool, NoMemory> {
    let engine = engine_on(rt, alloc, disk)?;
    match ask_of(alloc, WRITE) {
        Some(ask) => held(rt, alloc, engine, &ask, barriers),
        None => Ok(false),
    }
}

/// The same on a disk whose first write waits.
fn held_in_memory<R: Threads + Wait + Send + Sync>(
    rt: &R,
    alloc: Global,
) -> Result<bool, NoMemory> {
    let (came, goes) = (Barrier::new(2), Barrier::new(2));
    let hold = Hold {
        rt,
        came: &came,
        goes: &goes,
    };
    let disk = HeldDisk::new(new_disk(alloc)?, hold);
    held_on(rt, alloc, disk, (&came, &goes))
}

#[test]
fn a_seat_reads_while_the_lock_is_held(rt: HostRuntime) -> Result<(), Fail> {
    assert!(rt; held_in_memory(&rt, rt.alloc())?);
    Ok(())
}
