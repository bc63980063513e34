//! A seat writes, and another one reads the topics.

ghost use Rattle.std.specs.Prelude.{◌≡◌, ◌<◌, false, IsTrue};

use crate::asks::{answered, reads, write_ask};
use crate::fake::FakeEngine;
use kap_base::NoMemory;
use kap_http::Ask;
use kap_service::{Engine, Lock, Seat, Since, make_shared};
use std::alloc::Global;
use std::marker::Brand;
use std::process::Abort;
use std::sync::Wait;
use std::sync::ledger::{Blank, Ledger};
use std::test::Fail;
use topic_board::{Naming, Opened, Shown};

/// What is wanted of the seats: the status of the write, and the topics that are then.
#[derive(Clone, Copy)]
pub struct Wanted {
    pub status: u16,
    pub topics: &'static str,
}

/// Whether a write of the first seat gets the status, and the second one reads the topics before and behind it;
/// and whether the first one says that all is shown just where the write is done.
fn asked<E: Engine, J: Naming, O: Drop, T: Shown<J, O>, R: Wait + Drop, L1: Ledger, L2: Since>(
    rt: &impl Wait,
    alloc: Global,
    lock: &Lock<E, J, O, T, R, L1, L2>,
    seats: &mut [Seat<J, O, T, L1, L2>],
    ask: &Ask,
    wanted: Wanted,
) -> bool {
    let Some((first, rest)) = seats.split_first_mut() else {
        return false;
    };
    let Some(second) = rest.first_mut() else {
        return false;
    };
    let before = reads(alloc, second, "{\"topics\":[]}");
    let status = answered(rt, alloc, lock, first, ask);
    second.learn(first.told());
    let behind = reads(alloc, second, wanted.topics);
    let shown = first.shown() == (wanted.status == 204);
    before && status == wanted.status && first.status() == status && behind && shown
}

/// The same with two seats of this engine; and whether the end tells the one write.
fn row_by<E: Engine, J: Naming, L1: Ledger, L2: Since, R: Wait>(
    rt: &R,
    alloc: Global,
    opened: Opened,
    first: Blank,
    second: Blank,
    engine: E,
    ask: &Ask,
    wanted: Wanted,
) -> Result<bool, NoMemory>
    requires book { opened ≡ J.book }
    requires unspent { (E.value engine).spent ≡ false }
    requires names { (first.name ≡ L1.name) × (second.name ≡ L2.name) }
    requires parts { (first.parts ≡ L1.parts) × (second.parts ≡ L2.parts) }
    requires more { (2 < first.parts) × (2 < second.parts) }
    requires before { L2.before ≡ (E.value engine).faults }
    requires owned { IsTrue L2.owned → E.right engine }
{
    let made = make_shared::<E, J, &R, L1, L2>(rt, alloc, opened, engine, first, second, 2);
    let Ok((shared, mut seats)) = made else {
        return Err(NoMemory);
    };
    let fine = asked(rt, alloc, shared.lock(), seats.as_mut_slice(), ask, wanted);
    let closed = shared.close(seats);
    let done = wanted.status == 204;
    let counted = closed.changes == u64::from(done) && closed.faults == u64::from(!done);
    Ok(fine && counted && !closed.short)
}

/// The same on a board and with ledgers of its own. The engine is right, and so the service knows it.
pub fn row<E: Engine, R: Wait>(
    rt: &R,
    alloc: Global,
    engine: E,
    ask: &Ask,
    wanted: Wanted,
) -> Result<bool, NoMemory>
    requires unspent { (E.value engine).spent ≡ false }
    requires right { E.right engine }
{
    let (first, second) = (Blank::new(3), Blank::new(3));
    row_by::<E, Brand, Brand, Brand, R>(
        rt,
        alloc,
        Opened::new(),
        first,
        second,
        engine,
        ask,
        wanted,
    )
}

/// The same over a new engine in memory, whose first write fails or not.
fn fake_row<R: Wait>(rt: &R, alloc: Global, fails: bool, wanted: Wanted) -> Result<bool, NoMemory> {
    let Some(ask) = write_ask(alloc) else {
        return Ok(false);
    };
    let engine = FakeEngine::new(alloc, fails);
    row(rt, alloc, engine, &ask, wanted)
}

/// The topics behind a write.
pub const CRITICAL: &str = "{\"topics\":[{\"id\":\"main:c:alert2\",\"level\":\"CRITICAL\"}]}";

#[test]
fn a_seat_reads_what_another_wrote(rt: HostRuntime) -> Result<(), Fail> {
    let wanted = Wanted {
        status: 204,
        topics: CRITICAL,
    };
    assert!(rt; fake_row(&rt, rt.alloc(), false, wanted)?);
    Ok(())
}

#[test]
fn a_seat_tells_nothing_of_a_write_that_failed(rt: HostRuntime) -> Result<(), Fail> {
    let wanted = Wanted {
        status: 500,
        topics: "{\"topics\":[]}",
    };
    assert!(rt; fake_row(&rt, rt.alloc(), true, wanted)?);
    Ok(())
}
