//! Disks in folders, and what the tests ask of a disk.

use kap_io::{DirDisk, Disk, Failed, Part};
use std::fs;
use std::path::PathBuf;
use std::test::Fail;

/// A disk in a folder.
pub fn disk_in(rt: HostRuntime, folder: &str) -> Result<DirDisk<HostRuntime>, Fail> {
    Ok(DirDisk::new(rt.alloc(), rt, PathBuf::from_str(rt.alloc(), folder)?))
}

/// A disk in a folder that is made anew.
pub fn disk_in_new(rt: HostRuntime, folder: &str) -> Result<DirDisk<HostRuntime>, Fail> {
    let _ = fs::remove_dir_all(&rt, folder);
    fs::create_dir(&rt, folder)?;
    disk_in(rt, folder)
}

/// Whether a file has so many bytes.
pub fn has_size<D: Disk>(disk: &mut D, part: Part, size: u64) -> bool {
    disk.size(part) == Ok(size)
}

/// Whether a file is empty, also where it is read behind its end.
pub fn is_empty<D: Disk>(disk: &mut D, part: Part) -> bool {
    let mut bytes = [0; 8];
    let count = disk.read(part, 3, &mut bytes);
    let empty = has_size(disk, part, 0);
    count == Ok(0) && empty
}

/// Whether a file is synced.
pub fn syncs<D: Disk>(disk: &mut D, part: Part) -> bool {
    disk.sync(part).is_ok()
}

/// Whether the calls of a disk that read fail.
fn reads_fail<D: Disk>(disk: &mut D) -> bool {
    let mut bytes = [0; 8];
    let size = disk.size(Part::Head);
    let count = disk.read(Part::Head, 0, &mut bytes);
    size == Err(Failed) && count == Err(Failed)
}

/// Whether those that change a file fail.
fn changes_fail<D: Disk>(disk: &mut D) -> bool {
    let written = disk.write_at(Part::Head, 0, b"x");
    let cut = disk.cut(Part::Left, 0);
    written == Err(Failed) && cut == Err(Failed)
}

/// Whether each call of a disk fails.
pub fn each_call_fails<D: Disk>(disk: &mut D) -> bool {
    let read = reads_fail(disk);
    let changed = changes_fail(disk);
    let synced = syncs(disk, Part::Right);
    read && changed && !synced
}
