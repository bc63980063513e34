//! Each end of an edge learns what the other did.

use edge_queue::{Head, Tail, pair};
use kap_base::{Msg, Stamp};
use std::test::Fail;

/// Whether the barrier with this stamp was put.
fn puts(tail: &mut Tail, stamp: u64) -> bool {
    tail.put(Msg::Barrier(Stamp(stamp))).is_ok()
}

/// The stamp of the barrier that was taken.
fn takes(head: &mut Head) -> Option<u64> {
    match head.take() {
        Some(Msg::Barrier(Stamp(stamp))) => Some(stamp),
        _ => None,
    }
}

#[test]
fn ends_learn_what_the_other_did(rt: HostRuntime) -> Result<(), Fail> {
    let (mut tail, mut head) = pair(rt.alloc(), 1)?;
    assert!(rt; takes(&mut head).is_none());
    assert!(rt; puts(&mut tail, 1) && takes(&mut head) == Some(1));
    assert!(rt; puts(&mut tail, 2) && !puts(&mut tail, 3));
    assert!(rt; takes(&mut head) == Some(2) && tail.has_room());
    Ok(())
}
