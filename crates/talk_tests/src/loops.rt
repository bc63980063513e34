//! Links in memory, by turns on one thread.

use crate::pings::{PING, bare_pings, pings_of};
use conn_loop::{
    AddFault, Finished, Loop, MemReady, MemTryDoor, Ready, Single, SingleEnd, TryDoor, serve_door,
};
use http_dialog::LinkEnd;
use kap_base::ItemList;
use kap_io::{Failed, MemPollLink, TryLink};
use std::alloc::{AllocError, Global};
use std::sync::Wait;
use std::test::Fail;

/// A request with a body.
const WRITE: &[u8] =
    b"POST /kapacitor/v1/write?db=d&rp=r HTTP/1.1\r\nContent-Length: 6\r\n\r\nm x=1i";

/// The reply to each.
const REPLY: &[u8] = b"HTTP/1.1 204 No Content\r\n\r\n";

/// A link with these bytes, some a call, whose calls with these numbers would have to wait.
fn link_of(
    alloc: Global,
    bytes: &[u8],
    step: usize,
    waits: &[u64],
) -> Result<MemPollLink, AllocError> {
    let bytes = bytes.to_vec(alloc)?;
    let waits = waits.to_vec(alloc)?;
    Ok(MemPollLink::new(alloc, bytes, step.max(1), waits, Vec::new(alloc)))
}

/// Whether a link has this number, was closed, and has this many replies.
fn is_closed(done: &Finished<MemPollLink>, number: u32) -> bool {
    done.number == number && done.end == LinkEnd::Closed && done.link.bytes() == REPLY
}

/// The number under which a link was added.
fn added(alloc: Global, links: &mut Loop<MemPollLink>, link: MemPollLink) -> Option<u32> {
    links.add(alloc, link).ok()
}

#[test]
fn each_turn_polls_a_link_once(rt: HostRuntime) -> Result<(), Fail> {
    let alloc = rt.alloc();
    let mut links = Loop::new(alloc, 2);
    let mut serve = bare_pings();
    assert!(rt; added(alloc, &mut links, link_of(alloc, WRITE, 7, &[2, 4])?) == Some(0));
    assert!(rt; added(alloc, &mut links, link_of(alloc, WRITE, 7, &[2, 4])?) == Some(1));
    let turns: [&[u32]; 4] = [&[0], &[1, 1, 9], &[1], &[0, 0]];
    for turn in turns {
        assert!(rt; links.turn(alloc, turn, &mut serve)?.is_empty());
    }
    assert!(rt; links.links() == 2 && serve.served == 0);
    let ended = links.turn(alloc, &[0, 1], &mut serve)?;
    assert!(rt; ended.len() == 2 && is_closed(&ended[0], 0) && is_closed(&ended[1], 1));
    assert!(rt; links.turn(alloc, &[0, 1], &mut serve)?.is_empty());
    assert!(rt; links.links() == 0 && serve.served == 2);
    Ok(())
}

#[test]
fn a_full_loop_gives_the_link_back(rt: HostRuntime) -> Result<(), Fail> {
    let alloc = rt.alloc();
    let mut links = Loop::new(alloc, 1);
    let mut serve = bare_pings();
    assert!(rt; added(alloc, &mut links, link_of(alloc, WRITE, 7, &[])?) == Some(0));
    let Err(AddFault::Full(back)) = links.add(alloc, link_of(alloc, PING, 7, &[])?) else {
        panic!(rt; "not full");
    };
    let ended = links.turn(alloc, &[0], &mut serve)?;
    assert!(rt; ended.len() == 1 && is_closed(&ended[0], 0));
    assert!(rt; added(alloc, &mut links, back) == Some(1));
    Ok(())
}

#[test]
fn a_link_of_many_requests_is_woken(rt: HostRuntime) -> Result<(), Fail> {
    let alloc = rt.alloc();
    let bytes = pings_of(alloc, 100)?;
    let mut links = Loop::new(alloc, 2);
    let mut serve = bare_pings();
    assert!(rt; added(alloc, &mut links, link_of(alloc, &bytes, 10_000, &[])?) == Some(0));
    assert!(rt; !links.woken());
    assert!(rt; links.turn(alloc, &[0], &mut serve)?.is_empty());
    assert!(rt; links.woken() && serve.served == 64);
    assert!(rt; links.turn(alloc, &[], &mut serve)?.len() == 1);
    assert!(rt; !links.woken() && serve.served == 100);
    Ok(())
}

/// Three links at a door.
fn three_links(alloc: Global) -> Result<Vec<MemPollLink>, AllocError> {
    let mut links = Vec::new(alloc);
    links.push(link_of(alloc, WRITE, 7, &[3])?)?;
    links.push(link_of(alloc, PING, 9, &[])?)?;
    links.push(link_of(alloc, PING, 100, &[1])?)?;
    Ok(links)
}

/// What tells so many times that the links 0, 1 and 2 may go on.
fn ready_of(alloc: Global, times: usize) -> Result<MemReady, AllocError> {
    let mut lists = Vec::new(alloc);
    for _ in 0..times {
        lists.push(ItemList::from_items([2u32, 0, 7, 1, 0].to_vec(alloc)?))?;
    }
    Ok(MemReady::new(alloc, lists, Vec::new(alloc)))
}

/// Serves the three links at a door that waits, or fails, at the calls with these numbers, where they may go
/// on so many times.
fn serve_three(
    rt: &impl Wait,
    alloc: Global,
    waits: &[u64],
    fails: &[u64],
    times: usize,
) -> Result<(Single, u32), AllocError> {
    let mut door = MemTryDoor::new(
        three_links(alloc)?,
        waits.to_vec(alloc)?,
        fails.to_vec(alloc)?,
    );
    let mut ready = ready_of(alloc, times)?;
    let mut serve = bare_pings();
    let single = serve_door(rt, alloc, &mut door, &mut ready, &mut serve);
    Ok((single, serve.served))
}

#[test]
fn a_door_is_served_until_it_closes_or_fails(rt: HostRuntime) -> Result<(), Fail> {
    let alloc = rt.alloc();
    let closed = Single {
        links: 3,
        end: SingleEnd::Closed,
    };
    assert!(rt; serve_three(&rt, alloc, &[], &[], 9)? == (closed, 3));
    assert!(rt; serve_three(&rt, alloc, &[2, 4], &[], 9)? == (closed, 3));
    let failed = Single {
        links: 1,
        end: SingleEnd::DoorFailed,
    };
    assert!(rt; serve_three(&rt, alloc, &[], &[2], 9)? == (failed, 0));
    let unready = Single {
        links: 3,
        end: SingleEnd::ReadyFailed,
    };
    assert!(rt; serve_three(&rt, alloc, &[], &[], 1)? == (unready, 1));
    Ok(())
}

/// What tells these lists of numbers, one a wait.
fn telling(alloc: Global, lists: &[&[u32]]) -> Result<MemReady, AllocError> {
    let mut all = Vec::new(alloc);
    for list in lists {
        all.push(ItemList::from_items(list.to_vec(alloc)?))?;
    }
    Ok(MemReady::new(alloc, all, Vec::new(alloc)))
}

/// Serves 1,025 links of one ping each that are there at once, of which these lists are told; what came of it,
/// how many requests were served, and whether a link is still at the door.
fn serve_1025(
    rt: &impl Wait,
    alloc: Global,
    lists: &[&[u32]],
) -> Result<(Single, u32, bool), AllocError> {
    let mut links = Vec::new(alloc);
    for _ in 0..1_025 {
        links.push(link_of(alloc, PING, 100, &[])?)?;
    }
    let mut door = MemTryDoor::new(links, Vec::new(alloc), Vec::new(alloc));
    let mut ready = telling(alloc, lists)?;
    let mut serve = bare_pings();
    let single = serve_door(rt, alloc, &mut door, &mut ready, &mut serve);
    let more = matches!(door.try_accept(), Ok(Some(_)));
    Ok((single, serve.served, more))
}

#[test]
fn a_link_more_than_1024_waits_at_the_door(rt: HostRuntime) -> Result<(), Fail> {
    let alloc = rt.alloc();
    let full = Single {
        links: 1_024,
        end: SingleEnd::ReadyFailed,
    };
    assert!(rt; serve_1025(&rt, alloc, &[])? == (full, 0, true));
    let beyond: [&[u32]; 2] = [&[], &[1_024]];
    assert!(rt; serve_1025(&rt, alloc, &beyond)? == (full, 0, true));
    let all = Single {
        links: 1_025,
        end: SingleEnd::ReadyFailed,
    };
    let behind: [&[u32]; 3] = [&[], &[7], &[1_024]];
    assert!(rt; serve_1025(&rt, alloc, &behind)? == (all, 2, false));
    Ok(())
}

/// Tells numbers as another one does, and notes what it is asked.
#[derive(Drop)]
struct Noted<Y> {
    ready: Y,
    /// The numbers of the links that were watched, and of those that were released.
    watched: Vec<u32>,
    released: Vec<u32>,
    /// Of each wait whether it was at once.
    at_once: Vec<bool>,
}

impl<L: TryLink, Y: Ready<L>> Ready<L> for Noted<Y> {
    ghost faults = { λ n. Y.faults n.ready };

    fn watch(&mut self, link: &mut L, number: u32) -> Result<(), Failed> {
        let _ = self.watched.push(number);
        self.ready.watch(link, number)
    }

    fn release(&mut self, number: u32, link: L) {
        let _ = self.released.push(number);
        self.ready.release(number, link);
    }

    fn wait(&mut self, at_once: bool) -> Result<(), Failed> {
        let _ = self.at_once.push(at_once);
        self.ready.wait(at_once)
    }

    fn numbers(&self) -> &[u32] {
        self.ready.numbers()
    }
}

#[test]
fn each_link_is_watched_and_released(rt: HostRuntime) -> Result<(), Fail> {
    let alloc = rt.alloc();
    let mut links = Vec::new(alloc);
    links.push(link_of(alloc, &pings_of(alloc, 100)?, 10_000, &[])?)?;
    links.push(link_of(alloc, PING, 100, &[])?)?;
    let mut door = MemTryDoor::new(links, Vec::new(alloc), Vec::new(alloc));
    let lists: [&[u32]; 3] = [&[1], &[0], &[]];
    let mut ready = Noted {
        ready: telling(alloc, &lists)?,
        watched: Vec::new(alloc),
        released: Vec::new(alloc),
        at_once: Vec::new(alloc),
    };
    let mut serve = bare_pings();
    let single = serve_door(&rt, alloc, &mut door, &mut ready, &mut serve);
    let closed = Single {
        links: 2,
        end: SingleEnd::Closed,
    };
    assert!(rt; single == closed && serve.served == 101);
    assert!(rt; ready.watched.as_slice() == [0, 1].as_slice());
    assert!(rt; ready.released.as_slice() == [1, 0].as_slice());
    assert!(rt; ready.at_once.as_slice() == [false, false, true].as_slice());
    Ok(())
}
