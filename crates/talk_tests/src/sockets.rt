//! Connections over sockets on the loopback.

use crate::pings::{PING, Pings, pings_of};
use http_dialog::LinkEnd;
use kap_io::{Door, Failed, Link, Patience, SocketDoor};
use link_serve::serve_link;
use std::alloc::{AllocError, Global};
use std::io::{self, Read, Write};
use std::net::{SocketAddr, TcpListener, TcpStream};
use std::test::Fail;
use std::thread::{self, Threads, join};
use std::time::Duration;

/// A door at some port of the loopback, and where it is.
fn door_of(
    rt: &HostRuntime,
    patience: Patience,
) -> io::Result<(SocketDoor<TcpListener, &HostRuntime>, SocketAddr)> {
    let listener = TcpListener::bind(rt, "127.0.0.1:0")?;
    let addr = listener.local_addr()?;
    Ok((SocketDoor::new(listener, rt, patience), addr))
}

/// A patience of so many milliseconds for an idle link, and for a whole request.
pub(crate) fn patience_of(idle: u64, whole: u64) -> Patience {
    Patience {
        idle: Duration::from_millis(idle),
        whole: Duration::from_millis(whole),
    }
}

/// How many of some links were cut off, how the last one ended, and how many requests were served.
#[derive(Clone, Copy, PartialEq, Eq)]
struct Ended {
    cut_off: u32,
    last: Option<LinkEnd>,
    served: u32,
}

/// The next link at a door.
fn next_link<B: Door<L>, L: Link + Drop>(door: &mut B) -> Option<L> {
    match door.accept() {
        Ok(link) => link,
        Err(Failed) => None,
    }
}

/// Serves a link to its end.
fn serve_one<L: Link>(alloc: Global, link: &mut L, serve: &mut Pings) -> LinkEnd {
    serve_link(alloc, link, serve)
}

/// Serves so many links, one after the other, with so many times 4 KiB in each reply.
fn serve_links<B: Door<L>, L: Link + Drop>(
    alloc: Global,
    door: &mut B,
    links: u32,
    pieces: u32,
) -> Ended {
    let mut serve = Pings { served: 0, pieces };
    let mut cut_off = 0u32;
    let mut last = None;
    for _ in 0..links {
        if let Some(mut link) = next_link(door) {
            let end = serve_one(alloc, &mut link, &mut serve);
            cut_off = cut_off.saturating_add(u32::from(end == LinkEnd::ReadFault));
            last = Some(end);
        }
    }
    Ended {
        cut_off,
        last,
        served: serve.served,
    }
}

/// Writes a text, and reads to the end.
fn exchange(rt: &HostRuntime, addr: SocketAddr, text: &[u8]) -> io::Result<Vec<u8>> {
    let mut stream = TcpStream::connect(rt, addr)?;
    stream.write_all(text)?;
    let mut came = Vec::new(rt.alloc());
    stream.read_to_end(&mut came)?;
    Ok(came)
}

/// A head that is never whole.
const SLOW_HEAD: &[u8] = b"GET /kapacitor/v1/ping HTTP/1.1\r\nHost: kapacitor.example.org";

/// Sends the head over each of these, a byte every 100 ms, until all are closed.
fn trickle(rt: &HostRuntime, streams: &mut [TcpStream]) {
    for byte in SLOW_HEAD {
        let mut open = false;
        for stream in streams.iter_mut() {
            open |= stream.write_all(&[*byte]).is_ok();
        }
        if !open {
            return;
        }
        thread::sleep(rt, Duration::from_millis(100));
    }
}

/// Holds four connections by a byte at a time, and asks over a fifth.
fn ask_behind_slow(rt: &HostRuntime, addr: SocketAddr) -> io::Result<Vec<u8>> {
    let mut slow = [
        TcpStream::connect(rt, addr)?,
        TcpStream::connect(rt, addr)?,
        TcpStream::connect(rt, addr)?,
        TcpStream::connect(rt, addr)?,
    ];
    let mut fifth = TcpStream::connect(rt, addr)?;
    fifth.write_all(b"GET / HTTP/1.1\r\nConnection: close\r\n\r\n")?;
    trickle(rt, &mut slow);
    let mut came = Vec::new(rt.alloc());
    fifth.read_to_end(&mut came)?;
    Ok(came)
}

/// Leaves a connection idle, and asks over another one.
fn ask_beside_idle(rt: &HostRuntime, addr: SocketAddr) -> io::Result<Vec<u8>> {
    let _idle = TcpStream::connect(rt, addr)?;
    exchange(rt, addr, b"GET / HTTP/1.1\r\nConnection: close\r\n\r\n")
}

/// Sends a body of 8 MiB in pieces of 4,096 bytes, and reads to the end.
fn send_pieces(rt: &HostRuntime, addr: SocketAddr) -> io::Result<Vec<u8>> {
    let mut stream = TcpStream::connect(rt, addr)?;
    let piece = [b'm'; 4_096];
    let head = b"POST /write?db=d HTTP/1.1\r\nConnection: close\r\nContent-Length: 8388608\r\n\r\n";
    stream.write_all(head)?;
    for _ in 0..2_048 {
        stream.write_all(&piece)?;
    }
    let mut came = Vec::new(rt.alloc());
    stream.read_to_end(&mut came)?;
    Ok(came)
}

/// Asks once more over each of these, and adds the replies.
fn ask_each(streams: &mut [TcpStream], came: &mut Vec<u8>) -> io::Result<()> {
    for stream in streams.iter_mut() {
        stream.write_all(PING)?;
    }
    for stream in streams.iter_mut() {
        let mut reply = [0; 27];
        stream.read_exact(&mut reply)?;
        came.extend_from_slice(&reply)?;
    }
    Ok(())
}

/// Asks twice over each of so many connections, all of which are open.
fn ask_over_many(rt: &HostRuntime, addr: SocketAddr, count: u32) -> io::Result<Vec<u8>> {
    let mut streams = Vec::new(rt.alloc());
    for _ in 0..count {
        streams.push(TcpStream::connect(rt, addr)?)?;
    }
    let mut came = Vec::new(rt.alloc());
    ask_each(&mut streams, &mut came)?;
    ask_each(&mut streams, &mut came)?;
    Ok(came)
}

/// Writes a text, and reads to the end; and asks over another connection then.
fn ask_behind(rt: &HostRuntime, addr: SocketAddr, text: &[u8]) -> io::Result<Vec<u8>> {
    let mut came = exchange(rt, addr, text)?;
    let more = exchange(rt, addr, b"GET / HTTP/1.1\r\nConnection: close\r\n\r\n")?;
    came.extend_from_slice(&more)?;
    Ok(came)
}

/// Asks, reads a byte of the reply and nothing more for four seconds, and then to the end.
fn ask_deaf(rt: &HostRuntime, addr: SocketAddr) -> io::Result<Vec<u8>> {
    let mut stream = TcpStream::connect(rt, addr)?;
    stream.write_all(b"GET / HTTP/1.1\r\nConnection: close\r\n\r\n")?;
    let mut first = [0; 1];
    stream.read_exact(&mut first)?;
    let mut came = Vec::new(rt.alloc());
    came.extend_from_slice(&first)?;
    thread::sleep(rt, Duration::from_millis(4_000));
    stream.read_to_end(&mut came)?;
    Ok(came)
}

/// What asks at a door.
#[derive(Clone, Copy)]
pub(crate) enum Client<'a> {
    /// One that writes a text.
    Text(&'a [u8]),
    /// One behind four that send a byte at a time.
    BehindSlow,
    /// One beside an idle one.
    BesideIdle,
    /// One that sends a body in pieces.
    Pieces,
    /// One with so many connections at once.
    Many(u32),
    /// One that writes a text, and another one behind it.
    Behind(&'a [u8]),
    /// One that doesn't read what is answered.
    Deaf,
}

/// How many times 4 KiB the replies to a client have: more than sockets hold, where it doesn't read them.
pub(crate) fn pieces_for(client: Client<'_>) -> u32 {
    match client {
        Client::Deaf => 4_096,
        _ => 0,
    }
}

/// Asks, and reads to the end.
pub(crate) fn ask(rt: &HostRuntime, addr: SocketAddr, client: Client<'_>) -> io::Result<Vec<u8>> {
    match client {
        Client::Text(text) => exchange(rt, addr, text),
        Client::BehindSlow => ask_behind_slow(rt, addr),
        Client::BesideIdle => ask_beside_idle(rt, addr),
        Client::Pieces => send_pieces(rt, addr),
        Client::Many(count) => ask_over_many(rt, addr, count),
        Client::Behind(text) => ask_behind(rt, addr, text),
        Client::Deaf => ask_deaf(rt, addr),
    }
}

/// Serves so many links, with this patience in milliseconds for an idle link and for a whole request, while a
/// client asks in a thread of its own. How they ended, and what came there.
fn serve_beside(
    rt: &HostRuntime,
    threads: &impl Threads,
    patience: (u64, u64),
    links: u32,
    client: Client<'_>,
) -> io::Result<(Ended, Vec<u8>)> {
    let (mut door, addr) = door_of(rt, patience_of(patience.0, patience.1))?;
    let (ended, came) = join(
        threads,
        || serve_links(rt.alloc(), &mut door, links, pieces_for(client)),
        || ask(rt, addr, client),
    );
    Ok((ended, came?))
}

/// So many were cut off, the last one ended so, and so many requests were served.
fn ending(cut_off: u32, last: LinkEnd, served: u32) -> Ended {
    Ended {
        cut_off,
        last: Some(last),
        served,
    }
}

#[test]
fn a_pipeline_of_1500_gets_1000_replies(rt: HostRuntime) -> Result<(), Fail> {
    let text = pings_of(rt.alloc(), 1_500)?;
    let (how, came) = serve_beside(&rt, &rt, (5_000, 5_000), 1, Client::Text(&text))?;
    assert!(rt; how == ending(0, LinkEnd::Limit, 1_000));
    assert!(rt; came.len() == 27_019);
    Ok(())
}

/// A request with 2,000,000 bytes of a body that is too large.
pub(crate) fn too_large(alloc: Global) -> Result<Vec<u8>, AllocError> {
    let head = b"POST /write?db=d HTTP/1.1\r\nContent-Length: 20000000\r\n\r\n";
    let mut text = Vec::new(alloc);
    text.extend_from_slice(head)?;
    text.resize(head.len() + 2_000_000, b'm')?;
    Ok(text)
}

#[test]
fn a_413_arrives_behind_an_unread_body(rt: HostRuntime) -> Result<(), Fail> {
    let text = too_large(rt.alloc())?;
    let (how, came) = serve_beside(&rt, &rt, (5_000, 5_000), 1, Client::Text(&text))?;
    assert!(rt; how == ending(0, LinkEnd::Refused, 0));
    assert!(rt; came.starts_with(b"HTTP/1.1 413 Payload Too Large\r\n"));
    Ok(())
}

#[test]
fn four_clients_of_a_byte_at_a_time_are_cut_off(rt: HostRuntime) -> Result<(), Fail> {
    let (how, came) = serve_beside(&rt, &rt, (5_000, 500), 5, Client::BehindSlow)?;
    assert!(rt; how == ending(4, LinkEnd::Closed, 1));
    assert!(rt; came.len() == 46);
    Ok(())
}

#[test]
fn an_idle_client_is_cut_off(rt: HostRuntime) -> Result<(), Fail> {
    let (how, came) = serve_beside(&rt, &rt, (300, 5_000), 2, Client::BesideIdle)?;
    assert!(rt; how == ending(1, LinkEnd::Closed, 1));
    assert!(rt; came.len() == 46);
    Ok(())
}

#[test]
fn a_client_that_reads_nothing_is_cut_off(rt: HostRuntime) -> Result<(), Fail> {
    let (how, came) = serve_beside(&rt, &rt, (300, 5_000), 1, Client::Deaf)?;
    assert!(rt; how == ending(0, LinkEnd::WriteFault, 1));
    assert!(rt; came.starts_with(b"HTTP/1.1 200 OK\r\n") && came.len() < 16_777_216);
    Ok(())
}

#[test]
fn a_body_of_8_mib_in_pieces_is_served(rt: HostRuntime) -> Result<(), Fail> {
    let (how, came) = serve_beside(&rt, &rt, (5_000, 30_000), 1, Client::Pieces)?;
    assert!(rt; how == ending(0, LinkEnd::Closed, 1));
    assert!(rt; came.len() == 46);
    Ok(())
}
