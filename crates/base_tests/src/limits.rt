//! A body at the limit, and bodies past it.

use crate::folders::disk_in_new;
use gate_log::{LogFault, LogReader, make, read_log};
use kap_io::{DirDisk, Disk, Failed, Part};
use std::alloc::Global;
use std::fs;
use std::test::Fail;

/// Adds to a log a record whose body has so many zeros.
fn add_zeros<D: Disk>(disk: &mut D, size: u32) -> Result<(), Failed> {
    disk.cut(Part::Left, u64::from(size) + 14)?;
    disk.write_at(Part::Left, 9, &size.to_be_bytes())?;
    disk.write_at(Part::Left, 8, &[0xA5])
}

/// The reader of a log whose only record has such a body.
fn log_of<D: Disk>(alloc: Global, disk: &mut D, size: u32) -> Result<LogReader, LogFault> {
    let _log = make(alloc, disk, Part::Left)?;
    if add_zeros(disk, size).is_err() {
        return Err(LogFault::DiskFault);
    }
    read_log(alloc, disk, Part::Left)
}

/// The gate of the next record, and how long its body is.
fn next_of<D: Disk>(
    disk: &mut D,
    reader: &mut LogReader,
) -> Result<Option<(u64, usize)>, LogFault> {
    match reader.next(disk)? {
        Some((gate, body)) => Ok(Some((gate, body.len()))),
        None => Ok(None),
    }
}

/// Whether a record with such a body is refused, and the reader stays before it.
fn is_refused<D: Disk>(alloc: Global, disk: &mut D, size: u32) -> Result<bool, LogFault> {
    let mut reader = log_of(alloc, disk, size)?;
    let next = next_of(disk, &mut reader);
    Ok(matches!(next, Err(LogFault::Long)) && reader.gate() == 8)
}

/// A disk in the folder of these tests.
fn disk(rt: HostRuntime) -> Result<DirDisk<HostRuntime>, Fail> {
    disk_in_new(rt, "kap_io_limit")
}

#[test]
fn a_body_at_the_limit_is_read(rt: HostRuntime) -> Result<(), Fail> {
    let mut disk = disk(rt)?;
    let mut reader = log_of(rt.alloc(), &mut disk, 67_108_864)?;
    assert!(rt; next_of(&mut disk, &mut reader)? == Some((8, 67_108_864)));
    assert!(rt; next_of(&mut disk, &mut reader)?.is_none());
    fs::remove_dir_all(&rt, "kap_io_limit")?;
    Ok(())
}

#[test]
fn a_body_past_the_limit_is_not_read(rt: HostRuntime) -> Result<(), Fail> {
    assert!(rt; is_refused(rt.alloc(), &mut disk(rt)?, 67_108_865)?);
    assert!(rt; is_refused(rt.alloc(), &mut disk(rt)?, 2_147_483_648)?);
    fs::remove_dir_all(&rt, "kap_io_limit")?;
    Ok(())
}
