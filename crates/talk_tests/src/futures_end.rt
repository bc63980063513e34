//! Connections that an executor polls.

use crate::pings::{PING, bare_pings, pings_of};
use conn_future::{Conn, Talk};
use futures::executor::block_on;
use futures::task::Poll;
use futures::test::MockTask;
use http_dialog::LinkEnd;
use kap_io::MemPollLink;
use std::alloc::Global;
use std::test::Fail;

/// A connection over which so many pings come, whose calls with these numbers would have to wait.
fn conn_of(
    alloc: Global,
    pings: u32,
    step: usize,
    waits: &[u64],
) -> Result<Conn<MemPollLink>, Fail> {
    let waits = waits.to_vec(alloc)?;
    let bytes = pings_of(alloc, pings)?;
    let link = MemPollLink::new(alloc, bytes, step.max(1), waits, Vec::new(alloc));
    Ok(Conn::new(alloc, link, 7))
}

#[test]
fn an_executor_brings_it_to_its_end(rt: HostRuntime) -> Result<(), Fail> {
    let alloc = rt.alloc();
    let mut conn = conn_of(alloc, 1, 1, &[1, 3, 5, 40])?;
    let mut serve = bare_pings();
    let end = block_on(
        &rt,
        Talk {
            alloc,
            conn: &mut conn,
            serve: &mut serve,
        },
    )?;
    assert!(rt; end == LinkEnd::Closed);
    assert!(rt; conn.link().bytes() == b"HTTP/1.1 204 No Content\r\n\r\n".as_slice());
    assert!(rt; serve.served == 1);
    Ok(())
}

#[test]
fn a_poll_serves_64_and_wakes_the_task(rt: HostRuntime) -> Result<(), Fail> {
    let alloc = rt.alloc();
    let mut conn = conn_of(alloc, 100, PING.len() * 100, &[])?;
    let mut serve = bare_pings();
    let task = MockTask::new(&rt)?;
    let first = task.enter(|cx| conn.poll(alloc, cx, &mut serve));
    assert!(rt; first == Poll::Pending && task.is_woken());
    assert!(rt; serve.served == 64);
    let second = task.enter(|cx| conn.poll(alloc, cx, &mut serve));
    assert!(rt; second == Poll::Ready(LinkEnd::Closed));
    assert!(rt; serve.served == 100);
    Ok(())
}
