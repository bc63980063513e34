//! Tests of what no text shows: connections over real sockets on the loopback, by turns on one thread, and
//! those that an executor polls.
#![tactic(auto)]

#[cfg(test)]
mod futures_end;
#[cfg(test)]
mod loops;
#[cfg(test)]
mod pings;
#[cfg(test)]
mod shortages;
#[cfg(test)]
mod singles;
#[cfg(test)]
mod sockets;
