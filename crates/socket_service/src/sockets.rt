//! What opens the sockets of a service.

use conn_loop::{LINKS, MioDoor, MioReady};
use std::alloc::Global;
use std::io;
use std::net::{Net, TcpListener, TcpStream};
use std::time::Clock;

/// What opens the sockets of a service: the leave to use the network, without the types of its sockets.
pub trait Sockets {
    /// Listens at an address.
    fn listener_at(&self, addr: &str) -> io::Result<TcpListener>;

    /// What tells which links of a door may go on.
    fn watch<C: Clock + Copy>(
        &self,
        alloc: Global,
        door: &mut MioDoor<C>,
        clock: C,
    ) -> io::Result<MioReady<C>>;
}

impl<R: Net<Listener = TcpListener, Stream = TcpStream>> Sockets for R {
    fn listener_at(&self, addr: &str) -> io::Result<TcpListener> {
        TcpListener::bind(self, addr)
    }

    fn watch<C: Clock + Copy>(
        &self,
        alloc: Global,
        door: &mut MioDoor<C>,
        clock: C,
    ) -> io::Result<MioReady<C>> {
        MioReady::new(alloc, self, door, clock, LINKS)
    }
}
