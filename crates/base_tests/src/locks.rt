//! One disk a folder.

use crate::folders::{disk_in, disk_in_new, each_call_fails, has_size};
use kap_io::{Disk, Part};
use std::fs;
use std::test::Fail;

/// Writes four bytes to a file.
fn write_four<D: Disk>(disk: &mut D) -> bool {
    disk.write_at(Part::Left, 0, b"kept").is_ok()
}

#[test]
fn a_folder_is_used_by_one_disk_at_a_time(rt: HostRuntime) -> Result<(), Fail> {
    let mut first = disk_in_new(rt, "kap_io_lock")?;
    let mut other = disk_in(rt, "kap_io_lock")?;
    assert!(rt; write_four(&mut first));
    assert!(rt; fs::read(&rt, "kap_io_lock/head")?.is_empty());
    assert!(rt; each_call_fails(&mut other));
    assert!(rt; other.is_in_use() && !first.is_in_use());
    assert!(rt; has_size(&mut first, Part::Left, 4));
    drop(first);
    assert!(rt; has_size(&mut other, Part::Left, 4));
    assert!(rt; !other.is_in_use());
    fs::remove_dir_all(&rt, "kap_io_lock")?;
    Ok(())
}
