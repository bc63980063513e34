//! The same over an engine of tasks on a disk in memory.

ghost use Rattle.std.specs.Prelude.{◌≡◌, false, IfOk, IsTrue};
ghost use Rattle.service_engine.specs.Engines.{AreRight, IsRight, is_spent};

use crate::asks::ask_of;
use crate::rows::{CRITICAL, Wanted, row};
use kap_base::{NoMemory, Point};
use kap_io::{Disk, MemDisk};
use kap_service::{Closed, Engine};
use lambda_types::RegexPatterns;
use node_core::Node;
use node_set::{AnyNode, ScriptNode};
use service_engine::DiskEngine;
use std::alloc::Global;
use std::process::Abort;
use std::sync::Wait;
use std::test::Fail;
use std::thread::Threads;
use topic_store::{make_store, open_store};

pub type MemEngine<R> = DiskEngine<MemDisk, RegexPatterns, R>;

/// A disk in memory with a new store, which is right.
pub fn new_disk(alloc: Global) -> Result<MemDisk, NoMemory>
    ensures right { IfOk result (λ disk. AreRight ⟦<AnyNode as Node>⟧
        ⟦<AnyNode as ScriptNode>⟧.planned (⟦<MemDisk as Disk>⟧.may_leave disk)) }
{
    let mut disk = MemDisk::new(alloc, Vec::new(alloc));
    match make_store(alloc, &mut disk) {
        Ok(()) => Ok(disk),
        Err(_) => Err(NoMemory),
    }
}

/// The engine of the store on a disk, with two workers. It is right where its disk is.
pub fn engine_on<D: Disk + Drop, R: Threads + Sync>(
    rt: &R,
    alloc: Global,
    disk: D,
) -> Result<DiskEngine<D, RegexPatterns, R>, NoMemory>
    ensures unspent { IfOk result (λ e. is_spent e.engine ≡ false) }
    ensures right { IsTrue D.tells → AreRight ⟦<AnyNode as Node>⟧
        ⟦<AnyNode as ScriptNode>⟧.planned (D.may_leave disk)
        → IfOk result (λ e. IsRight ⟦<AnyNode as Node>⟧ ⟦<AnyNode as ScriptNode>⟧.planned
        D.tells (D.seen e.disk) (D.may_leave e.disk) e.engine) }
{
    let pats = RegexPatterns::new(alloc, Vec::new(alloc));
    match DiskEngine::open(rt, alloc, disk, pats, 2, 64) {
        Ok(engine) => Ok(engine),
        Err(_) => Err(NoMemory),
    }
}

/// A task with a topic, which is critical above 5.
const DEFINE: &[u8] = b"POST /kapacitor/v1/tasks HTTP/1.1\r\nContent-Length: 102\r\n\r\n\
{\"id\":\"c\",\"script\":\"stream|from()|alert().crit(lambda: \\\"x\\\" > 5)\",\"status\":\"enabled\",\"type\":\"stream\"}";

/// A point for which it is.
pub const WRITE: &[u8] = b"POST /write?db=d&rp=r HTTP/1.1\r\nContent-Length: 8\r\n\r\nm x=9i 2";

/// The status of an engine's reply at the moment 0.
fn reply_status<E: Engine>(alloc: Global, engine: &mut E, request: &[u8]) -> u16
    requires { (E.value engine.old).spent ≡ false }
    ensures right { E.right engine.old → E.right engine.new }
{
    match ask_of(alloc, request) {
        Some(ask) => engine.reply(alloc, &ask, 0).status,
        None => 0,
    }
}

/// Whether a seat reads what another one wrote, on a store with the task.
fn disk_row<R: Threads + Wait + Sync>(rt: &R, alloc: Global) -> Result<bool, NoMemory> {
    let mut engine = engine_on(rt, alloc, new_disk(alloc)?)?;
    let defined = reply_status(alloc, &mut engine, DEFINE);
    let Some(ask) = ask_of(alloc, WRITE) else {
        return Ok(false);
    };
    if engine.spent() {
        return Ok(false);
    }
    let wanted = Wanted {
        status: 204,
        topics: CRITICAL,
    };
    let fine = row(rt, alloc, engine, &ask, wanted)?;
    Ok(fine && defined == 200)
}

#[test]
fn a_seat_reads_what_another_wrote_to_a_disk(rt: HostRuntime) -> Result<(), Fail> {
    assert!(rt; disk_row(&rt, rt.alloc())?);
    Ok(())
}

/// A point without a time.
pub const POINT: &[u8] =
    b"POST /kapacitor/v1/write?db=d&rp=r HTTP/1.1\r\nContent-Length: 6\r\n\r\nm x=1i";

/// Whether each of these points is of the moment 5.
fn are_of_five(points: &[Point]) -> bool {
    'points: for point in points {
        if point.time != 5 {
            return false;
        }
    }
    true
}

/// Whether the store behind the service has two points, of the moment 5.
pub fn has_two<R: Threads + Sync>(alloc: Global, closed: Closed<MemEngine<R>>) -> bool {
    let (mut disk, _) = closed.engine.into_parts();
    let Ok(store) = open_store(alloc, &mut disk) else {
        return false;
    };
    match store.points(&mut disk, 0) {
        Ok(points) => points.len() == 2 && are_of_five(points.as_slice()),
        Err(_) => false,
    }
}
