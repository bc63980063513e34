//! Connections that are served on a case's disk.

ghost use Rattle.std.specs.Prelude.{◌≡◌, ◌<◌, false};

use crate::answers::end_line;
use crate::fault::CaseFault;
use http_dialog::LinkEnd;
use kap_base::Bytes;
use kap_io::{FixedClock, MemDisk, MemLink};
use kap_service::{Closed, Desk, Engine, Since, make_shared};
use lambda_types::RegexPatterns;
use link_serve::serve_link;
use service_engine::DiskEngine;
use std::alloc::Global;
use std::marker::Brand;
use std::sync::Wait;
use std::sync::ledger::{Blank, Ledger};
use std::thread::Threads;
use topic_board::{Naming, Opened};

/// The workers of an engine, and the room of its net's edges.
const WORKERS: u32 = 2;

const CAPACITY: u32 = 64;

/// The line that tells how a connection ended.
fn end_text(end: LinkEnd) -> &'static str {
    match end {
        LinkEnd::Closed => "> Closed\n",
        LinkEnd::Limit => "> Limit\n",
        LinkEnd::Refused => "> Refused\n",
        LinkEnd::ReadFault => "> ReadFault\n",
        LinkEnd::WriteFault => "> WriteFault\n",
        LinkEnd::NoMemory => "> NoMemory\n",
    }
}

/// Shares an engine with one seat, serves a link by it at the moment 0, and ends the service: what is left
/// of it, and how the link ended.
fn serve_by<E: Engine, J: Naming, L1: Ledger, L2: Since, R: Wait>(
    rt: &R,
    alloc: Global,
    opened: Opened,
    engine: E,
    first: Blank,
    second: Blank,
    link: &mut MemLink,
) -> Result<(Closed<E>, LinkEnd), CaseFault>
    requires book { opened ≡ J.book }
    requires unspent { (E.value engine).spent ≡ false }
    requires names { (first.name ≡ L1.name) × (second.name ≡ L2.name) }
    requires parts { (first.parts ≡ L1.parts) × (second.parts ≡ L2.parts) }
    requires more { (1 < first.parts) × (1 < second.parts) }
    requires before { L2.before ≡ (E.value engine).faults }
    requires unowned { L2.owned ≡ false }
{
    let made = make_shared::<E, J, &R, L1, L2>(rt, alloc, opened, engine, first, second, 1);
    let Ok((shared, mut seats)) = made else {
        return Err(CaseFault::NoStore);
    };
    let Some(seat) = seats.first_mut() else {
        return Err(CaseFault::NoStore);
    };
    let mut desk = Desk {
        rt,
        lock: shared.lock(),
        seat,
        clock: &FixedClock(0),
    };
    let end = serve_link(alloc, link, &mut desk);
    Ok((shared.close(seats), end))
}

/// The same on a board and with ledgers of its own.
fn serve_alone<E: Engine, R: Wait>(
    rt: &R,
    alloc: Global,
    engine: E,
    link: &mut MemLink,
) -> Result<(Closed<E>, LinkEnd), CaseFault>
    requires unspent { (E.value engine).spent ≡ false }
{
    let (first, second) = (Blank::new(2), Blank::new(2));
    serve_by::<E, Brand, Brand, Brand, R>(rt, alloc, Opened::new(), engine, first, second, link)
}

/// Serves a connection over which these bytes come, on the store of this disk: the disk behind it, and what
/// was replied, with how the connection ended, and how often with 500.
pub fn connect<R: Threads + Wait + Sync>(
    rt: &R,
    alloc: Global,
    disk: MemDisk,
    bytes: Vec<u8>,
) -> Result<(MemDisk, Bytes), CaseFault> {
    let pats = RegexPatterns::new(alloc, Vec::new(alloc));
    let opened = DiskEngine::<MemDisk, RegexPatterns, R>::open(
        rt, alloc, disk, pats, WORKERS, CAPACITY,
    );
    let Ok(engine) = opened else {
        return Err(CaseFault::NoStore);
    };
    let mut link = MemLink::new(alloc, bytes, 65_536, Vec::new(alloc));
    let (closed, end) = serve_alone(rt, alloc, engine, &mut link)?;
    let faults = closed.faults;
    let (disk, _) = closed.engine.into_parts();
    let mut text = Bytes::new(alloc);
    text.append(link.bytes())?;
    end_line(&mut text)?;
    text.append(end_text(end).as_bytes())?;
    if faults > 0 {
        text.append(format!(in alloc; "> faults {faults}\n")?.as_bytes())?;
    }
    Ok((disk, text))
}
