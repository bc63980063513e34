//! The service at a TCP socket: an engine is shared, and serves the links that come there.
#![tactic(auto)]

mod listening;
mod seats;
mod serving;
mod single;
mod sockets;
mod unserved;

pub use serving::{serve_alone, serve_seats};
pub use sockets::Sockets;
pub use unserved::Unserved;
