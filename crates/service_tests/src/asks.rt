//! What the tests ask.

use kap_http::{Ask, read_request, route};
use kap_service::{Engine, Lock, Seat, Since};
use std::alloc::Global;
use std::sync::Wait;
use std::sync::ledger::Ledger;
use topic_board::{Naming, Shown};

/// What a client asks for with these bytes.
pub fn ask_of(alloc: Global, bytes: &[u8]) -> Option<Ask> {
    let Ok(Some((request, _))) = read_request(alloc, bytes) else {
        return None;
    };
    match route(alloc, &request) {
        Ok(ask) => Some(ask),
        Err(_) => None,
    }
}

/// A write without lines.
pub fn write_ask(alloc: Global) -> Option<Ask> {
    ask_of(alloc, b"POST /write?db=main HTTP/1.1\r\n\r\n")
}

/// Whether the seat's reply about topics is this one, without the lock.
pub fn reads<J: Naming, O: Drop, T: Shown<J, O>, L1: Ledger, L2: Ledger>(
    alloc: Global,
    seat: &mut Seat<J, O, T, L1, L2>,
    body: &str,
) -> bool {
    match seat.answer(alloc, &Ask::Topics) {
        Some(reply) => reply.status == 200 && reply.body.as_slice() == body.as_bytes(),
        None => false,
    }
}

/// The status of the answer to an ask of this seat.
pub fn answered<
    E: Engine,
    J: Naming,
    O: Drop,
    T: Shown<J, O>,
    R: Wait + Drop,
    L1: Ledger,
    L2: Since,
>(
    rt: &impl Wait,
    alloc: Global,
    lock: &Lock<E, J, O, T, R, L1, L2>,
    seat: &mut Seat<J, O, T, L1, L2>,
    ask: &Ask,
) -> u16 {
    match lock.answer(rt, alloc, seat, ask, 0) {
        Ok(decided) => decided.status(),
        Err(reply) => reply.status,
    }
}
