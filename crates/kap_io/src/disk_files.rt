//! The files of a disk in memory.

ghost use Rattle.std.specs.Prelude.{◌≡◌, ◌+◌, ◌-◌, ◌<◌, ◌≤◌, [], length, min, replicate, IfOk, OnOk, OnErr};
ghost use Rattle.kap_io.specs.Disk.{Places, overwritten, padded, resized};
ghost use Rattle.kap_io.specs.FileBytes.{file_of, with_file};

use crate::disk::Part;
use std::alloc::{AllocError, Global};
use std::marker::Model;

/// Three files.
#[derive(Drop)]
pub(crate) struct DiskFiles {
    head: Vec<u8>,
    left: Vec<u8>,
    right: Vec<u8>,
}

impl Model for DiskFiles {
    ghost use Rattle.kap_io.specs.FileBytes.{FileBytes};

    ghost Value = { FileBytes };

    ghost view = { λ f. record {
      head = f.head.items;
      left = f.left.items;
      right = f.right.items;
    } };
}

impl DiskFiles {
    /// Three empty files.
    pub(crate) fn empty(alloc: Global) -> Self
        ensures { result ≡ record { head = []; left = []; right = [] } }
    {
        DiskFiles {
            head: Vec::new(alloc),
            left: Vec::new(alloc),
            right: Vec::new(alloc),
        }
    }

    /// The files with these bytes.
    pub(crate) fn of_bytes(head: Vec<u8>, left: Vec<u8>, right: Vec<u8>) -> Self
        ensures { result ≡ record { head = head.items; left = left.items; right = right.items } }
    {
        DiskFiles { head, left, right }
    }

    /// The same files again.
    pub(crate) fn copy(&self, alloc: Global) -> Result<Self, AllocError>
        ensures { OnOk result (result ≡ Ok self.now) }
    {
        Ok(DiskFiles {
            head: self.head.to_vec(alloc)?,
            left: self.left.to_vec(alloc)?,
            right: self.right.to_vec(alloc)?,
        })
    }

    /// The bytes of a file.
    pub(crate) fn get(&self, part: Part) -> &[u8]
        ensures { result.now ≡ file_of self.now part }
    {
        match part {
            Part::Head => &self.head,
            Part::Left => &self.left,
            Part::Right => &self.right,
        }
    }

    /// Writes to a file. An `Err`, for want of memory, changes nothing.
    pub(crate) fn write(&mut self, part: Part, at: u64, piece: &[u8]) -> Result<(), AllocError>
        ensures ok { OnOk result (self.new
            ≡ with_file part (overwritten at piece.now (file_of self.old part)) self.old) }
        ensures err { OnErr result (self.new ≡ self.old) }
    {
        match part {
            Part::Head => overwrite(&mut self.head, at, piece),
            Part::Left => overwrite(&mut self.left, at, piece),
            Part::Right => overwrite(&mut self.right, at, piece),
        }
    }

    /// Gives a file this length. An `Err`, for want of memory, changes nothing.
    pub(crate) fn cut(&mut self, part: Part, size: u64) -> Result<(), AllocError>
        ensures ok { OnOk result (self.new
            ≡ with_file part (resized size (file_of self.old part)) self.old) }
        ensures err { OnErr result (self.new ≡ self.old) }
        ensures longer { OnErr result (length (file_of self.old part) < size) }
    {
        match part {
            Part::Head => resize(&mut self.head, size),
            Part::Left => resize(&mut self.left, size),
            Part::Right => resize(&mut self.right, size),
        }
    }
}

/// Gives a file zeros up to this length, and says where the range of so many bytes from an offset on begins
/// and ends in it. An `Err`, for want of memory, changes nothing.
fn make_room(file: &mut Vec<u8>, at: u64, count: usize) -> Result<(usize, usize), AllocError>
    ensures ok { OnOk result (file.new.items ≡ padded (at + count) file.old.items) }
    ensures range { IfOk result (λ range. (range.0 ≡ at) × (range.1 ≡ at + count)) }
    ensures inside { IfOk result (λ range. range.1 ≤ length file.new.items) }
    ensures err { OnErr result (file.new.items ≡ file.old.items) }
{
    let at = at as usize;
    let Some(end) = at.checked_add(count) else {
        return Err(AllocError);
    };
    if file.len() < end {
        file.resize(end, 0)?;
    }
    Ok((at, end))
}

/// Writes these bytes at an offset, over what is there and past the end. An `Err`, for want of memory,
/// changes nothing.
pub(crate) fn overwrite(file: &mut Vec<u8>, at: u64, piece: &[u8]) -> Result<(), AllocError>
    ensures ok { OnOk result (file.new.items ≡ overwritten at piece.now file.old.items) }
    ensures err { OnErr result (file.new.items ≡ file.old.items) }
{
    let (start, end) = make_room(file, at, piece.len())?;
    file[start..end].copy_from_slice(piece);
    Ok(())
}

/// Writes this byte so many times at an offset. An `Err`, for want of memory, changes nothing.
pub(crate) fn fill(file: &mut Vec<u8>, at: u64, count: usize, byte: u8) -> Result<(), AllocError>
    ensures ok { OnOk result (file.new.items
        ≡ overwritten at (replicate count byte) file.old.items) }
    ensures err { OnErr result (file.new.items ≡ file.old.items) }
{
    let (start, end) = make_room(file, at, count)?;
    file[start..end].fill(byte);
    Ok(())
}

/// Gives a file this length, with zeros behind its old end. An `Err`, for want of memory, changes nothing.
pub(crate) fn resize(file: &mut Vec<u8>, size: u64) -> Result<(), AllocError>
    ensures ok { OnOk result (file.new.items ≡ resized size file.old.items) }
    ensures err { OnErr result (file.new.items ≡ file.old.items) }
    ensures longer { OnErr result (length file.old.items < size) }
{
    file.resize(size as usize, 0)?;
    Ok(())
}

/// Places the bytes of a file from an offset on at the front of `buf`, as many as there are or as have room.
pub(crate) fn place(file: &[u8], at: u64, buf: &mut [u8]) -> usize
    requires { 0 < length buf.old }
    ensures bound { result ≤ length buf.new }
    ensures bytes { Places at file.now buf.new result }
    ensures count { result ≡ min (length buf.old) (length file.now - at) }
{
    let start = file.len().min(at as usize);
    let (_, rest) = file.split_at(start);
    let count = buf.len().min(rest.len());
    buf[..count].copy_from_slice(&rest[..count]);
    count
}
