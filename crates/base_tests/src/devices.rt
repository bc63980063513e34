//! The disk over a folder, and the clocks.

use crate::folders::{disk_in, disk_in_new, each_call_fails, has_size, is_empty, syncs};
use gate_log::{Log, LogFault, make, open_log};
use kap_io::{Clock, Disk, FixedClock, Part, RealClock};
use std::alloc::Global;
use std::fs;
use std::os::unix::fs::symlink;
use std::test::Fail;

/// Gives a file so many bytes.
fn cut<D: Disk>(disk: &mut D, part: Part, size: u64) -> bool {
    disk.cut(part, size).is_ok()
}

#[test]
fn a_file_is_made_by_the_first_call_that_changes_it(rt: HostRuntime) -> Result<(), Fail> {
    let mut disk = disk_in_new(rt, "kap_io_files")?;
    assert!(rt; is_empty(&mut disk, Part::Left));
    assert!(rt; fs::metadata(&rt, "kap_io_files/left").is_err());
    assert!(rt; cut(&mut disk, Part::Head, 5));
    assert!(rt; has_size(&mut disk, Part::Head, 5));
    assert!(rt; syncs(&mut disk, Part::Right));
    assert!(rt; fs::read(&rt, "kap_io_files/right")?.is_empty());
    fs::remove_dir_all(&rt, "kap_io_files")?;
    Ok(())
}

/// Adds a body.
fn add<D: Disk>(log: &mut Log, disk: &mut D, body: &[u8]) -> Result<(), LogFault> {
    if log.spent() {
        return Err(LogFault::DiskFault);
    }
    log.append(disk, body)
}

/// Makes a log of one body.
fn write_log<D: Disk>(alloc: Global, disk: &mut D) -> Result<(), LogFault> {
    let mut log = make(alloc, disk, Part::Left)?;
    add(&mut log, disk, b"body")
}

/// Where the gate behind that body stands.
fn end_of_log<D: Disk>(alloc: Global, disk: &mut D) -> Result<u64, LogFault> {
    Ok(open_log(alloc, disk, Part::Left)?.end())
}

#[test]
fn a_log_stands_in_a_folder(rt: HostRuntime) -> Result<(), Fail> {
    write_log(rt.alloc(), &mut disk_in_new(rt, "kap_io_log")?)?;
    let file = fs::read(&rt, "kap_io_log/left")?;
    assert!(rt; file.as_slice() == b"KAPLOG01\xa5\0\0\0\x04body\0".as_slice());
    assert!(rt; end_of_log(rt.alloc(), &mut disk_in(rt, "kap_io_log")?)? == 17);
    fs::remove_dir_all(&rt, "kap_io_log")?;
    Ok(())
}

#[test]
fn a_folder_that_is_not_there_fails(rt: HostRuntime) -> Result<(), Fail> {
    let mut disk = disk_in(rt, "no_such_folder/below")?;
    assert!(rt; each_call_fails(&mut disk));
    let opened = end_of_log(rt.alloc(), &mut disk);
    assert!(rt; matches!(opened, Err(LogFault::DiskFault)));
    Ok(())
}

#[test]
fn a_file_that_cannot_be_synced_fails(rt: HostRuntime) -> Result<(), Fail> {
    let mut disk = disk_in_new(rt, "kap_io_sync")?;
    symlink(&rt, "/dev/null", "kap_io_sync/left")?;
    assert!(rt; syncs(&mut disk, Part::Right));
    assert!(rt; !syncs(&mut disk, Part::Left));
    fs::remove_dir_all(&rt, "kap_io_sync")?;
    Ok(())
}

/// The folder has another name by then, so that it can't be opened and synced, as the first sync of each file
/// wants it.
#[test]
fn a_folder_that_cannot_be_synced_fails(rt: HostRuntime) -> Result<(), Fail> {
    let mut disk = disk_in_new(rt, "kap_io_moved")?;
    assert!(rt; cut(&mut disk, Part::Left, 1));
    assert!(rt; cut(&mut disk, Part::Right, 1));
    assert!(rt; syncs(&mut disk, Part::Left));
    fs::rename(&rt, "kap_io_moved", "kap_io_gone")?;
    assert!(rt; syncs(&mut disk, Part::Left));
    assert!(rt; !syncs(&mut disk, Part::Right));
    fs::remove_dir_all(&rt, "kap_io_gone")?;
    Ok(())
}

#[test]
fn clocks_tell_the_time(rt: HostRuntime) {
    assert!(rt; FixedClock(5).now() == 5);
    assert!(rt; RealClock::new(rt).now() > 1_700_000_000_000_000_000);
}
