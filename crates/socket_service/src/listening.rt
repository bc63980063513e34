//! Where a service listens, and how long its links wait.

ghost use Rattle.std.specs.Prelude.{IfErr};
ghost use Rattle.socket_service.specs.Ends.{EndsSeats};

use crate::sockets::Sockets;
use kap_io::Patience;
use serve_words::{ServeFault, ServeOptions};
use std::net::TcpListener;
use std::time::Duration;

/// How many seconds a request may take to come.
const WHOLE_SECONDS: u64 = 120;

/// How long links wait.
pub(crate) fn patience_of(options: ServeOptions<'_>) -> Patience {
    Patience {
        idle: Duration::from_secs(u64::from(options.idle)),
        whole: Duration::from_secs(WHOLE_SECONDS),
    }
}

/// Listens at the address, and says so on standard error, with the port that was bound.
pub(crate) fn listen<R: Sockets + Eprint>(rt: &R, addr: &str) -> Result<TcpListener, ServeFault>
    ensures { IfErr result EndsSeats }
{
    let Ok(listener) = rt.listener_at(addr) else {
        return Err(ServeFault::DoorFault);
    };
    let Ok(bound) = listener.local_addr() else {
        return Err(ServeFault::DoorFault);
    };
    let _ = eprintln!(rt; "kapd: listening on {bound}");
    Ok(listener)
}
