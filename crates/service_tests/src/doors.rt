//! Posts serve at doors in memory, over one engine.

ghost use Rattle.std.specs.Prelude.{◌≡◌, ◌<◌, ◌≤◌, false, vec_len, IfOk};

use crate::fake::FakeEngine;
use kap_base::NoMemory;
use kap_io::{FixedClock, MemDoor, MemLink};
use kap_service::{Closed, Engine, Post, Seat, Served, Since, make_shared, serve};
use std::alloc::Global;
use std::marker::Brand;
use std::process::Abort;
use std::sync::Wait;
use std::sync::ledger::{Blank, Ledger};
use std::test::Fail;
use std::thread::Threads;
use topic_board::{Naming, Opened, Posted, Published, Shown};

/// A write, and a ping behind it.
const WRITE_AND_PING: &[u8] =
    b"POST /write?db=main HTTP/1.1\r\n\r\nGET /kapacitor/v1/ping HTTP/1.1\r\n\r\n";

/// A link with these requests, whose bytes come seven at a time.
fn link(alloc: Global, requests: &[u8]) -> Result<MemLink, NoMemory> {
    let mut bytes = Vec::new(alloc);
    bytes.extend_from_slice(requests)?;
    Ok(MemLink::new(alloc, bytes, 7, Vec::new(alloc)))
}

/// A door at which so many links with these requests come.
pub fn door(alloc: Global, links: u32, requests: &[u8]) -> Result<MemDoor, NoMemory> {
    let mut all = Vec::new(alloc);
    'links: for _ in 0..links {
        all.push(link(alloc, requests)?)?;
    }
    Ok(MemDoor::new(all, Vec::new(alloc)))
}

/// A post for each seat, at these doors. One for which there is no door has one at which nobody comes.
fn posts_of<J: Naming, O: Drop, T: Shown<J, O>, L1: Ledger, L2: Ledger>(
    alloc: Global,
    seats: Vec<Seat<J, O, T, L1, L2>>,
    doors: Vec<MemDoor>,
) -> Result<Vec<Post<MemDoor, J, O, T, L1, L2>>, NoMemory>
    ensures { IfOk result (λ posts. vec_len posts ≡ vec_len seats) }
{
    let mut doors = doors;
    let mut posts = Vec::new(alloc);
    'seats: for seat in seats {
        let door = match doors.pop() {
            Some(door) => door,
            None => MemDoor::new(Vec::new(alloc), Vec::new(alloc)),
        };
        posts.push(Post {
            seat,
            door,
            links: 0,
            failed: false,
        })?;
    }
    Ok(posts)
}

/// The seats of these posts.
fn seats_of<J: Naming, O: Drop, T: Shown<J, O>, L1: Ledger, L2: Ledger>(
    alloc: Global,
    posts: Vec<Post<MemDoor, J, O, T, L1, L2>>,
) -> Result<Vec<Seat<J, O, T, L1, L2>>, NoMemory>
    ensures { IfOk result (λ seats. vec_len seats ≡ vec_len posts) }
{
    let mut seats = Vec::new(alloc);
    'posts: for post in posts {
        seats.push(post.seat)?;
    }
    Ok(seats)
}

/// What posts at these doors, each with a seat of this engine, do at the moment 5, and the end of it.
fn day_by<
    E: Engine + Send,
    J: Naming + Send + Sync,
    L1: Ledger + Send + Sync,
    L2: Since + Send + Sync,
    R: Threads + Wait + Sync,
>(
    rt: &R,
    alloc: Global,
    opened: Opened,
    first: Blank,
    second: Blank,
    engine: E,
    doors: Vec<MemDoor>,
) -> Result<(Served, Closed<E>), NoMemory>
    requires book { opened ≡ J.book }
    requires unspent { (E.value engine).spent ≡ false }
    requires names { (first.name ≡ L1.name) × (second.name ≡ L2.name) }
    requires parts { (first.parts ≡ L1.parts) × (second.parts ≡ L2.parts) }
    requires places { (0 < vec_len doors) × (vec_len doors ≤ 64) }
    requires more { (vec_len doors < first.parts) × (vec_len doors < second.parts) }
    requires before { L2.before ≡ (E.value engine).faults }
    requires unowned { L2.owned ≡ false }
{
    let count = doors.len() as u32;
    let made = make_shared::<E, J, &R, L1, L2>(rt, alloc, opened, engine, first, second, count);
    let Ok((shared, seats)) = made else {
        return Err(NoMemory);
    };
    let mut posts = posts_of(alloc, seats, doors)?;
    let served = serve::<
        MemLink,
        MemDoor,
        E,
        J,
        Posted<J>,
        Published<J>,
        &R,
        L1,
        L2,
        FixedClock,
        R,
    >(
        rt,
        alloc,
        shared.lock(),
        posts.as_mut_slice(),
        &FixedClock(5),
    );
    let seats = seats_of(alloc, posts)?;
    Ok((served, shared.close(seats)))
}

/// The same on a board and with ledgers of its own.
pub fn day<E: Engine + Send, R: Threads + Wait + Sync>(
    rt: &R,
    alloc: Global,
    engine: E,
    doors: Vec<MemDoor>,
) -> Result<(Served, Closed<E>), NoMemory>
    requires unspent { (E.value engine).spent ≡ false }
    requires places { (0 < vec_len doors) × (vec_len doors ≤ 2) }
{
    let (first, second) = (Blank::new(3), Blank::new(3));
    day_by::<E, Brand, Brand, Brand, R>(rt, alloc, Opened::new(), first, second, engine, doors)
}

/// Whether so many links came, and so many changes were told.
pub fn tells<E: Engine>(did: &(Served, Closed<E>), links: u64, changes: u64) -> bool {
    let (served, closed) = did;
    let fine = closed.faults == 0 && !closed.short;
    fine && closed.changes == changes && served.links == links && !served.door_failed
}

#[test]
fn two_posts_serve_all_links(rt: HostRuntime) -> Result<(), Fail> {
    let alloc = rt.alloc();
    let mut doors = Vec::new(alloc);
    doors.push(door(alloc, 3, WRITE_AND_PING)?)?;
    doors.push(door(alloc, 2, WRITE_AND_PING)?)?;
    let did = day(&rt, alloc, FakeEngine::new(alloc, false), doors)?;
    assert!(rt; tells(&did, 5, 5));
    Ok(())
}
