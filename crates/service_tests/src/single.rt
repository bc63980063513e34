//! One seat serves all links of a door in memory on one thread, over one engine.

ghost use Rattle.std.specs.Prelude.{◌≡◌, ◌<◌};

use crate::fake::FakeEngine;
use conn_loop::{MemReady, MemTryDoor, Single, SingleEnd};
use kap_base::{ItemList, NoMemory};
use kap_io::{FixedClock, MemPollLink};
use kap_service::{Closed, Since, make_shared, serve_single};
use std::alloc::Global;
use std::marker::Brand;
use std::sync::Wait;
use std::sync::ledger::{Blank, Ledger};
use std::test::Fail;
use topic_board::{Naming, Opened};

/// A write, and a ping behind it.
const REQUESTS: &[u8] =
    b"POST /write?db=main HTTP/1.1\r\n\r\nGET /kapacitor/v1/ping HTTP/1.1\r\n\r\n";

/// A link with these requests, whose bytes come seven at a time, and whose fifth call would have to wait.
fn link(alloc: Global) -> Result<MemPollLink, NoMemory> {
    let mut bytes = Vec::new(alloc);
    bytes.extend_from_slice(REQUESTS)?;
    let mut waits = Vec::new(alloc);
    waits.push(5)?;
    Ok(MemPollLink::new(alloc, bytes, 7, waits, Vec::new(alloc)))
}

/// A door at which three links come, whose call with this number would have to wait.
fn door(alloc: Global, waits: u64) -> Result<MemTryDoor, NoMemory> {
    let mut links = Vec::new(alloc);
    links.push(link(alloc)?)?;
    links.push(link(alloc)?)?;
    links.push(link(alloc)?)?;
    let mut calls = Vec::new(alloc);
    calls.push(waits)?;
    Ok(MemTryDoor::new(links, calls, Vec::new(alloc)))
}

/// What tells the links 0 to 2 four times.
fn ready(alloc: Global) -> Result<MemReady, NoMemory> {
    let mut lists = Vec::new(alloc);
    'times: for _ in 0..4 {
        let mut numbers = Vec::new(alloc);
        numbers.extend_from_slice(&[0u32, 1, 2])?;
        lists.push(ItemList::from_items(numbers))?;
    }
    Ok(MemReady::new(alloc, lists, Vec::new(alloc)))
}

fn day<'a, J: Naming, L1: Ledger, L2: Since, R: Wait>(
    rt: &'a R,
    alloc: Global,
    opened: Opened,
    first: Blank,
    second: Blank,
    door: MemTryDoor,
) -> Result<Option<(Single, Closed<FakeEngine>)>, NoMemory>
    requires book { opened ≡ J.book }
    requires names { (first.name ≡ L1.name) × (second.name ≡ L2.name) }
    requires parts { (first.parts ≡ L1.parts) × (second.parts ≡ L2.parts) }
    requires more { (1 < first.parts) × (1 < second.parts) }
    requires before { L2.before ≡ record { disk = 0; patterns = 0 } }
{
    let engine = FakeEngine::new(alloc, false);
    let (shared, seats) = match make_shared::<FakeEngine, J, &'a R, L1, L2>(
        rt, alloc, opened, engine, first, second, 1,
    ) {
        Ok(made) => made,
        Err(_) => return Err(NoMemory),
    };
    let mut seats = seats;
    let mut door = door;
    let mut ready = ready(alloc)?;
    let Some(mut seat) = seats.pop() else {
        return Ok(None);
    };
    let lock = shared.lock();
    let single = serve_single(
        rt,
        alloc,
        lock,
        &mut seat,
        &mut door,
        &mut ready,
        &FixedClock(0),
    );
    seats.push(seat)?;
    Ok(Some((single, shared.close(seats))))
}

#[test]
fn one_seat_serves_all_links(rt: HostRuntime) -> Result<(), Fail> {
    let (first, second) = (Blank::new(2), Blank::new(2));
    let door = door(rt.alloc(), 2)?;
    let did = day::<Brand, Brand, Brand, _>(&rt, rt.alloc(), Opened::new(), first, second, door)?;
    let Some((single, closed)) = did else {
        panic!(rt; "no seat");
    };
    let all = Single {
        links: 3,
        end: SingleEnd::Closed,
    };
    assert!(rt; single == all);
    assert!(rt; closed.changes == 3 && closed.faults == 0 && !closed.short);
    Ok(())
}
