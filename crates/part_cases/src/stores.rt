//! `store make`; `store fill points SIZE COUNT` and `store fill many SIZE COUNT`: so many records of so many;
//! `store points`, `store transitions`, `store calls` (see `pieces.rt`); `store read`, `store behind` (see
//! `readers.rt`).

use crate::pieces::put_pieces;
use crate::readers::{put_read, put_topics};
use crate::records::record_of;
use crate::store_calls::{self, Added, add_record, open};
use crate::texts::put_number;
use case_text::{LineFault, first_of, name_of, number, numbers, text};
use kap_base::{Bytes, NoMemory};
use kap_io::MemDisk;
use std::alloc::Global;
use store_records::Rec;
use topic_store::{Store, StoreFault};

/// Adds a fault.
fn put_fault(alloc: Global, fault: StoreFault, to: &mut Bytes) -> Result<(), NoMemory> {
    match fault {
        StoreFault::NotStore { part, offset } => {
            to.append(b"no store: ")?;
            to.append(name_of(part).as_bytes())?;
            put_number(alloc, " at ", offset, to)
        }
        StoreFault::DiskFault => to.append(b"disk fault"),
        StoreFault::Long => to.append(b"long"),
        StoreFault::NoMemory => to.append(b"no memory"),
    }
}

/// Makes a store.
fn make(alloc: Global, disk: &mut MemDisk, to: &mut Bytes) -> Result<(), NoMemory> {
    match store_calls::make(alloc, disk) {
        Ok(()) => to.append(b"made"),
        Err(fault) => put_fault(alloc, fault, to),
    }
}

/// Adds a record to a store that was opened.
fn add_to(
    alloc: Global,
    disk: &mut MemDisk,
    store: &mut Store,
    rec: &Rec,
    to: &mut Bytes,
) -> Result<(), NoMemory> {
    match add_record(disk, store, rec) {
        Added::Done => to.append(b"added"),
        Added::Spent => to.append(b"spent"),
        Added::NoForm => to.append(b"no form"),
        Added::Fault(fault) => put_fault(alloc, fault, to),
    }
}

/// Adds so many records to a store that was opened, the first of which begins with this number, and each of
/// which has so many.
fn fill(
    alloc: Global,
    disk: &mut MemDisk,
    store: &mut Store,
    line: &str,
    to: &mut Bytes,
) -> Result<(), LineFault> {
    let (kind, rest) = first_of(line);
    let (size, count) = first_of(rest);
    let size = number(size)?;
    let mut first = 1u64;
    for _ in 0..number(count)? {
        let rec = record_of(alloc, format!(in alloc; "{kind} {first} {size}")?.as_str())?;
        add_to(alloc, disk, store, &rec, to)?;
        to.append(b"; ")?;
        first = first.saturating_add(size);
    }
    Ok(())
}

/// Opens a store and adds records to it.
fn fill_opened(
    alloc: Global,
    disk: &mut MemDisk,
    line: &str,
    to: &mut Bytes,
) -> Result<(), LineFault> {
    match open(alloc, disk) {
        Ok(mut store) => fill(alloc, disk, &mut store, line, to),
        Err(fault) => Ok(put_fault(alloc, fault, to)?),
    }
}

/// Adds the fault, where there is one.
fn put_outcome(
    alloc: Global,
    outcome: Result<(), StoreFault>,
    to: &mut Bytes,
) -> Result<(), LineFault> {
    match outcome {
        Ok(()) => Ok(()),
        Err(fault) => Ok(put_fault(alloc, fault, to)?),
    }
}

/// `NUMBERS`: adds the pieces behind them.
fn put_pieces_line(
    alloc: Global,
    disk: &mut MemDisk,
    kind: &str,
    line: &str,
    to: &mut Bytes,
) -> Result<(), LineFault> {
    let numbers = numbers(alloc, line)?;
    let outcome = put_pieces(alloc, disk, kind, &numbers, to);
    put_outcome(alloc, outcome, to)
}

/// `NUMBER`: adds what a reader gives behind it.
fn put_read_line(
    alloc: Global,
    disk: &mut MemDisk,
    line: &str,
    to: &mut Bytes,
) -> Result<(), LineFault> {
    let after = number(line)?;
    let outcome = put_read(alloc, disk, after, to);
    put_outcome(alloc, outcome, to)
}

/// `TOPIC NUMBERS`: adds the topics behind so many transitions.
fn put_behind_line(
    alloc: Global,
    disk: &mut MemDisk,
    line: &str,
    to: &mut Bytes,
) -> Result<(), LineFault> {
    let (topic, behind) = first_of(line);
    let topic = text(alloc, topic)?;
    let numbers = numbers(alloc, behind)?;
    let outcome = put_topics(alloc, disk, &topic, &numbers, to);
    put_outcome(alloc, outcome, to)
}

/// Adds the answer of a line `store`.
pub fn answer_store(
    alloc: Global,
    disk: &mut MemDisk,
    line: &str,
    to: &mut Bytes,
) -> Result<(), LineFault> {
    let (kind, rest) = first_of(line);
    match kind {
        "make" => Ok(make(alloc, disk, to)?),
        "fill" => fill_opened(alloc, disk, rest, to),
        "points" | "transitions" | "calls" => put_pieces_line(alloc, disk, kind, rest, to),
        "read" => put_read_line(alloc, disk, rest, to),
        "behind" => put_behind_line(alloc, disk, rest, to),
        _ => Err(LineFault::NoForm),
    }
}
