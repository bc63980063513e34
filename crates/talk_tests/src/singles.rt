//! Connections over sockets on the loopback, many on one thread.

ghost use Rattle.std.specs.Prelude.{None};

use crate::pings::{Pings, pings_of};
use crate::sockets::{Client, ask, patience_of, pieces_for, too_large};
use conn_loop::{LINKS, MioDoor, MioReady, Single, SingleEnd, TryDoor, serve_door};
use kap_io::{Stop, TryLink};
use std::io;
use std::net::{SocketAddr, TcpListener};
use std::sync::Wait;
use std::test::Fail;
use std::thread::{Threads, join};

/// A door that closes behind so many links.
#[derive(Drop)]
struct Few<B> {
    door: B,
    left: u32,
}

impl<L: TryLink, B: TryDoor<L>> TryDoor<L> for Few<B> {
    ghost left = { λ _. None };

    ghost faults = { λ f. B.faults f.door };

    ghost waits = { λ f. B.waits f.door };

    fn try_accept(&mut self) -> Result<Option<L>, Stop> {
        if self.left == 0 {
            return Ok(None);
        }
        let came = self.door.try_accept();
        if came.is_ok() {
            self.left -= 1;
        }
        came
    }
}

/// A door at some port of the loopback, and where it is.
fn door_of(
    rt: &HostRuntime,
    patience: (u64, u64),
) -> io::Result<(MioDoor<&HostRuntime>, SocketAddr)> {
    let listener = TcpListener::bind(rt, "127.0.0.1:0")?;
    let addr = listener.local_addr()?;
    let door = MioDoor::new(listener, rt, patience_of(patience.0, patience.1))?;
    Ok((door, addr))
}

/// Serves so many links, with so many times 4 KiB in each reply; what came of it, and how many requests were
/// served.
fn serve_few(
    rt: &HostRuntime,
    waiting: &impl Wait,
    door: MioDoor<&HostRuntime>,
    links: u32,
    pieces: u32,
) -> io::Result<(Single, u32)> {
    let mut door = door;
    let mut ready = MioReady::new(rt.alloc(), rt, &mut door, rt, LINKS)?;
    let mut few = Few { door, left: links };
    let mut serve = Pings { served: 0, pieces };
    let single = serve_door(waiting, rt.alloc(), &mut few, &mut ready, &mut serve);
    Ok((single, serve.served))
}

/// Serves so many links, with this patience in milliseconds, while a client asks in a thread of its own. How
/// many requests were served, where all links came, and what came there.
fn serve_beside<R: Threads + Wait + Sync>(
    rt: &HostRuntime,
    threads: &R,
    patience: (u64, u64),
    links: u32,
    client: Client<'_>,
) -> io::Result<(Option<u32>, Vec<u8>)> {
    let (door, addr) = door_of(rt, patience)?;
    let (how, came) = join(
        threads,
        || serve_few(rt, threads, door, links, pieces_for(client)),
        || ask(rt, addr, client),
    );
    let (single, served) = how?;
    let all = Single {
        links: u64::from(links),
        end: SingleEnd::Closed,
    };
    Ok(((single == all).then_some(served), came?))
}

#[test]
fn many_connections_are_served_by_turns(rt: HostRuntime) -> Result<(), Fail> {
    let (served, came) = serve_beside(&rt, &rt, (5_000, 5_000), 100, Client::Many(100))?;
    assert!(rt; served == Some(200));
    assert!(rt; came.len() == 5_400);
    Ok(())
}

#[test]
fn a_pipeline_of_1500_gets_1000_replies_by_turns(rt: HostRuntime) -> Result<(), Fail> {
    let text = pings_of(rt.alloc(), 1_500)?;
    let (served, came) = serve_beside(&rt, &rt, (5_000, 5_000), 1, Client::Text(&text))?;
    assert!(rt; served == Some(1_000));
    assert!(rt; came.len() == 27_019);
    Ok(())
}

#[test]
fn a_413_arrives_behind_an_unread_body_by_turns(rt: HostRuntime) -> Result<(), Fail> {
    let text = too_large(rt.alloc())?;
    let (served, came) = serve_beside(&rt, &rt, (5_000, 5_000), 2, Client::Behind(&text))?;
    assert!(rt; served == Some(1) && came.len() == 172);
    assert!(rt; came.starts_with(b"HTTP/1.1 413 Payload Too Large\r\n"));
    Ok(())
}

#[test]
fn slow_and_idle_connections_end_by_turns(rt: HostRuntime) -> Result<(), Fail> {
    let (served, came) = serve_beside(&rt, &rt, (5_000, 500), 5, Client::BehindSlow)?;
    assert!(rt; served == Some(1) && came.len() == 46);
    let (served, came) = serve_beside(&rt, &rt, (300, 5_000), 2, Client::BesideIdle)?;
    assert!(rt; served == Some(1) && came.len() == 46);
    Ok(())
}

#[test]
fn a_client_that_reads_nothing_is_cut_off_by_turns(rt: HostRuntime) -> Result<(), Fail> {
    let (served, came) = serve_beside(&rt, &rt, (300, 5_000), 1, Client::Deaf)?;
    assert!(rt; served == Some(1));
    assert!(rt; came.starts_with(b"HTTP/1.1 200 OK\r\n") && came.len() < 16_777_216);
    Ok(())
}

#[test]
fn a_body_of_8_mib_in_pieces_is_served_by_turns(rt: HostRuntime) -> Result<(), Fail> {
    let (served, came) = serve_beside(&rt, &rt, (5_000, 30_000), 1, Client::Pieces)?;
    assert!(rt; served == Some(1) && came.len() == 46);
    Ok(())
}
