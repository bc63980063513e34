//! A door at a listener that has no sockets to give for a while.

use crate::sockets::patience_of;
use kap_io::{Door, SocketDoor};
use std::io::{self, Error};
use std::net::{OpenListener, SocketAddr, TcpListener, TcpStream};
use std::sync::atomic::{AtomicU32, Ordering};
use std::test::Fail;
use std::time::{Clock, Duration};

/// A listener that answers an error of the system, with this number, to its first calls.
#[derive(Drop)]
struct Refusing {
    listener: TcpListener,
    code: i32,
    refused: u32,
    calls: AtomicU32,
}

impl OpenListener for Refusing {
    type Stream = TcpStream;

    fn accept(&self) -> io::Result<(TcpStream, SocketAddr)> {
        if self.calls.fetch_add(1, Ordering::SeqCst) < self.refused {
            return Err(Error::from_raw_os_error(self.code));
        }
        self.listener.accept()
    }
}

/// The system's time, which never sleeps.
#[derive(Clone, Copy)]
struct Awake<'a>(&'a HostRuntime);

impl Clock for Awake<'_> {
    fn monotonic(&self) -> io::Result<Duration> {
        self.0.monotonic()
    }

    fn since_1970(&self) -> io::Result<Duration> {
        self.0.since_1970()
    }
}

/// Whether the door at a listener that refuses so many calls so lets a client in that waits there.
fn lets_in(rt: &HostRuntime, code: i32, refused: u32) -> io::Result<bool> {
    let listener = TcpListener::bind(rt, "127.0.0.1:0")?;
    let client = TcpStream::connect(rt, listener.local_addr()?)?;
    let refusing = Refusing {
        listener,
        code,
        refused,
        calls: AtomicU32::new(0),
    };
    let mut door = SocketDoor::new(refusing, Awake(rt), patience_of(5_000, 5_000));
    let answer = door.accept();
    drop(client);
    Ok(matches!(answer, Ok(Some(_))))
}

#[test]
fn a_door_passes_over_shortages_and_clients_that_are_gone(rt: HostRuntime) -> Result<(), Fail> {
    for code in [12, 23, 24, 105, 103] {
        assert!(rt; lets_in(&rt, code, 999)?);
        assert!(rt; !lets_in(&rt, code, 1_000)?);
    }
    assert!(rt; !lets_in(&rt, 22, 1)?);
    Ok(())
}
