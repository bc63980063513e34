//! One post serves at a door in memory, from the one seat of an engine.

ghost use Rattle.std.specs.Prelude.{◌≡◌, IfOk, vec_len};

use crate::disks::{POINT, engine_on, has_two, new_disk};
use crate::doors::{day, door, tells};
use crate::fake::FakeEngine;
use kap_base::NoMemory;
use kap_io::MemDoor;
use std::alloc::Global;
use std::process::Abort;
use std::sync::Wait;
use std::test::Fail;
use std::thread::Threads;

/// This door alone.
fn only(alloc: Global, door: MemDoor) -> Result<Vec<MemDoor>, NoMemory>
    ensures { IfOk result (λ doors. vec_len doors ≡ 1) }
{
    let mut doors = Vec::new(alloc);
    doors.push(door)?;
    Ok(doors)
}

/// Whether two links with a point are served, and their points are stored.
fn stores_two<R: Threads + Wait + Send + Sync>(rt: &R, alloc: Global) -> Result<bool, NoMemory> {
    let engine = engine_on(rt, alloc, new_disk(alloc)?)?;
    let two = only(alloc, door(alloc, 2, POINT)?)?;
    let did = day(rt, alloc, engine, two)?;
    let fine = tells(&did, 2, 2);
    let (_, closed) = did;
    Ok(fine && has_two(alloc, closed))
}

#[test]
fn one_post_stores_the_points_of_two_links(rt: HostRuntime) -> Result<(), Fail> {
    assert!(rt; stores_two(&rt, rt.alloc())?);
    Ok(())
}

/// 1,001 writes in one piece.
fn many_writes(alloc: Global) -> Result<Vec<u8>, NoMemory> {
    let mut writes = Vec::new(alloc);
    'writes: for _ in 0..1_001 {
        writes.extend_from_slice(b"POST /write?db=main HTTP/1.1\r\n\r\n")?;
    }
    Ok(writes)
}

#[test]
fn a_link_that_ended_is_served_no_more(rt: HostRuntime) -> Result<(), Fail> {
    let alloc = rt.alloc();
    let writes = many_writes(alloc)?;
    let one = only(alloc, door(alloc, 1, writes.as_slice())?)?;
    let did = day(&rt, alloc, FakeEngine::new(alloc, false), one)?;
    assert!(rt; tells(&did, 1, 1_000));
    Ok(())
}
