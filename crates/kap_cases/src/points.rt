//! Points that are written as lines.

use crate::fault::CaseFault;
use case_text::{LineFault, point_of};
use kap_base::{Body, Item, ItemList, Point, Shared, Stamp, Text};
use node_core::Items;
use std::alloc::Global;

/// The point of a line, of database and policy `d`.
fn point(alloc: Global, line: &str) -> Result<Point, CaseFault> {
    let name = Text::from_str(alloc, "d")?;
    point_of(alloc, line.as_bytes(), &name, &name).map_err(|fault| match fault {
        LineFault::NoMemory => CaseFault::NoMemory,
        _ => CaseFault::NoNodes,
    })
}

/// The point of a line, with a stamp.
fn item(alloc: Global, stamp: u64, line: &str) -> Result<Item, CaseFault> {
    let body = Body::Point(Shared::new(alloc, point(alloc, line)?)?);
    Ok(Item {
        stamp: Stamp(stamp),
        body,
    })
}

/// The points of these lines, with the stamps from 1 on: the first so many, and those behind them.
pub fn items(alloc: Global, lines: &str, count: u64) -> Result<(Items, Items), CaseFault> {
    let mut before = ItemList::new(alloc);
    let mut behind = ItemList::new(alloc);
    let mut stamp = 0u64;
    for line in lines.lines() {
        stamp = stamp.saturating_add(1);
        let next = item(alloc, stamp, line)?;
        if stamp <= count {
            before.push(next)?;
        } else {
            behind.push(next)?;
        }
    }
    Ok((before, behind))
}
