//! What the faults of a service print, and the statuses that they stand for.

use kap_io::Part;
use serve_words::ServeFault;
use std::alloc::{AllocError, Global};
use std::test::Fail;

/// Whether a fault prints this text, and ends the process with this status.
fn tells(alloc: Global, fault: ServeFault, text: &str, status: u8) -> Result<bool, AllocError> {
    Ok(fault.to_string(alloc)?.as_str() == text && fault.number() == status)
}

#[test]
fn each_fault_prints_its_text(rt: HostRuntime) -> Result<(), Fail> {
    let alloc = rt.alloc();
    assert!(rt; tells(alloc, ServeFault::Usage, "usage", 2)?);
    let damaged = ServeFault::NotStore {
        part: Part::Left,
        offset: 13_406,
    };
    assert!(rt; tells(alloc, damaged, "not a store: left at 13406", 6)?);
    let other = ServeFault::NotStore {
        part: Part::Right,
        offset: 8,
    };
    assert!(rt; tells(alloc, other, "not a store: right at 8", 6)?);
    let none = ServeFault::NotStore {
        part: Part::Head,
        offset: 0,
    };
    assert!(rt; tells(alloc, none, "not a store: head at 0", 6)?);
    assert!(rt; tells(alloc, ServeFault::NoMemory, "no memory", 70)?);
    assert!(rt; tells(alloc, ServeFault::DiskFault, "disk fault", 73)?);
    assert!(rt; tells(alloc, ServeFault::DoorFault, "door fault", 74)?);
    assert!(rt; tells(alloc, ServeFault::ReadyFault, "ready fault", 75)?);
    Ok(())
}
