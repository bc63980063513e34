ghost use Rattle.std.specs.Prelude.{◌≡◌, ◌<◌, [], false, IfOk};
ghost use Rattle.std.specs.Io.{ReadsAtMost};
ghost use Rattle.kap_io.specs.Causes.{HasCause};

use crate::disk::{Disk, Part};
use crate::failed::Failed;
use crate::lock_file::LockFile;
use std::alloc::Global;
use std::fs::{File, Files, OpenFile};
use std::io::ErrorKind;
use std::os::unix::fs::FileExt;
use std::path::PathBuf;
use std::{fs, io};

/// A disk over the files `head`, `left` and `right` of a folder. It tells no contents. Its first call takes
/// the exclusive lock of `head`, which is made where it isn't there, and holds it as long as the disk lives:
/// so no two disks of this kind change a folder at a time, in one process or in two. Where another one has
/// the lock each call fails. `left` or `right` that isn't there has size 0 until the first write, cut or sync
/// makes it. A folder that can't be used is a failed call, and so is a write that can't reach the disk. A
/// sync reaches the disk, with data and length; the first one of a file also syncs the folder, so that the
/// file can't vanish with the power. Each `Err` of the system is counted.
#[derive(Drop)]
pub struct DirDisk<R: Files + Drop> {
    folder: Folder<R>,
    faults: u64,
}

/// A folder, and its files as far as they were opened.
#[derive(Drop)]
struct Folder<R: Files + Drop> {
    alloc: Global,
    system: R,
    path: PathBuf,
    owner: Owner,
    head: Seat<R::File>,
    left: Seat<R::File>,
    right: Seat<R::File>,
}

/// Who has the lock of a folder's head.
#[derive(Clone, Copy)]
enum Owner {
    /// Nobody has asked for it.
    Unknown,
    /// This disk.
    Ours,
    /// Another one had it, when this one last asked.
    Another,
}

/// A file of a folder.
#[derive(Drop)]
struct Seat<F: Drop> {
    /// It, once it was opened.
    file: Option<F>,
    /// Whether the folder was synced since.
    is_settled: bool,
}

impl<F: Drop> Seat<F> {
    fn empty() -> Self {
        Seat {
            file: None,
            is_settled: false,
        }
    }

    fn opened(file: F) -> Self {
        Seat {
            file: Some(file),
            is_settled: false,
        }
    }
}

impl<R: Files + Drop> DirDisk<R>
where
    R::File: FileExt + LockFile,
{
    /// The disk in this folder. Nothing is opened yet.
    pub fn new(alloc: Global, system: R, folder: PathBuf) -> Self
        ensures { ⟦<DirDisk<R> as Disk>⟧.faults result ≡ 0 }
    {
        DirDisk {
            folder: Folder {
                alloc,
                system,
                path: folder,
                owner: Owner::Unknown,
                head: Seat::empty(),
                left: Seat::empty(),
                right: Seat::empty(),
            },
            faults: 0,
        }
    }

    /// Whether the last call failed since another disk, of this process or another one, uses the folder.
    pub fn is_in_use(&self) -> bool {
        matches!(self.folder.owner, Owner::Another)
    }
}

impl<R: Files + Drop> Disk for DirDisk<R>
where
    R::File: FileExt + LockFile,
{
    ghost tells = { false };

    ghost seen = { λ _ _. [] };

    ghost may_leave = { λ _ _. Unit {0} };

    ghost moment = { λ _. 0 };

    ghost left_since = { λ _ _ _. Unit {0} };

    ghost faults = { λ d. d.faults };

    ghost reads_as = { λ _ _. tt };

    ghost counts_now = { λ _ _ _ _ _ _. tt };

    ghost only_now = { λ _ _ _ _. tt };

    fn size(&mut self, part: Part) -> Result<u64, Failed> {
        let done = self.folder.size(part);
        counted(&mut self.faults, done)
    }

    fn read(&mut self, part: Part, at: u64, buf: &mut [u8]) -> Result<usize, Failed> {
        let done = self.folder.read(part, at, buf);
        counted(&mut self.faults, done)
    }

    fn write_at(&mut self, part: Part, at: u64, piece: &[u8]) -> Result<(), Failed> {
        let done = self.folder.write(part, at, piece);
        counted(&mut self.faults, done)
    }

    fn cut(&mut self, part: Part, size: u64) -> Result<(), Failed> {
        let done = self.folder.cut(part, size);
        counted(&mut self.faults, done)
    }

    fn sync(&mut self, part: Part) -> Result<(), Failed> {
        let done = self.folder.sync(part);
        counted(&mut self.faults, done)
    }
}

impl<R: Files + Drop> Folder<R>
where
    R::File: FileExt + LockFile,
{
    fn seat(&self, part: Part) -> &Seat<R::File> {
        match part {
            Part::Head => &self.head,
            Part::Left => &self.left,
            Part::Right => &self.right,
        }
    }

    fn put(&mut self, part: Part, seat: Seat<R::File>) {
        match part {
            Part::Head => self.head = seat,
            Part::Left => self.left = seat,
            Part::Right => self.right = seat,
        }
    }

    /// Opens a file, or makes it.
    fn open(&self, part: Part, makes: bool) -> io::Result<R::File> {
        let path = self.path.join(self.alloc, name_of(part))?;
        let mut how = File::options();
        how.read(true).write(true).create(makes);
        how.open(&self.system, &path)
    }

    /// The file, where it is there.
    fn found(&mut self, part: Part) -> io::Result<Option<&R::File>> {
        if self.seat(part).file.is_none() {
            match self.open(part, false) {
                Ok(file) => self.put(part, Seat::opened(file)),
                Err(fault) if fault.kind() == ErrorKind::NotFound => {
                    fs::metadata(&self.system, &self.path)?;
                }
                Err(fault) => return Err(fault),
            }
        }
        Ok(self.seat(part).file.as_ref())
    }

    /// The file, which is made where it isn't there.
    fn made(&mut self, part: Part) -> io::Result<&R::File> {
        if self.seat(part).file.is_none() {
            let file = self.open(part, true)?;
            self.put(part, Seat::opened(file));
        }
        match &self.seat(part).file {
            Some(file) => Ok(file),
            None => Err(ErrorKind::NotFound.into()),
        }
    }

    /// Takes the lock of the head, where this disk hasn't got it.
    fn lock(&mut self) -> io::Result<()> {
        if let Owner::Ours = self.owner {
            return Ok(());
        }
        self.owner = Owner::Unknown;
        if self.made(Part::Head)?.take_lock()? {
            self.owner = Owner::Ours;
            Ok(())
        } else {
            self.owner = Owner::Another;
            Err(ErrorKind::WouldBlock.into())
        }
    }

    fn size(&mut self, part: Part) -> io::Result<u64> {
        self.lock()?;
        match self.found(part)? {
            Some(file) => Ok(file.metadata()?.len()),
            None => Ok(0),
        }
    }

    fn read(&mut self, part: Part, at: u64, buf: &mut [u8]) -> io::Result<usize>
        ensures { ReadsAtMost result buf.new }
    {
        self.lock()?;
        match self.found(part)? {
            Some(file) => file.read_at(buf, at),
            None => Ok(0),
        }
    }

    fn write(&mut self, part: Part, at: u64, piece: &[u8]) -> io::Result<()> {
        self.lock()?;
        self.made(part)?.write_all_at(piece, at)
    }

    fn cut(&mut self, part: Part, size: u64) -> io::Result<()> {
        self.lock()?;
        self.made(part)?.set_len(size)
    }

    fn sync(&mut self, part: Part) -> io::Result<()> {
        self.lock()?;
        self.made(part)?.sync_data()?;
        if !self.seat(part).is_settled {
            File::open(&self.system, &self.path)?.sync_all()?;
            self.settle(part);
        }
        Ok(())
    }

    fn settle(&mut self, part: Part) {
        match part {
            Part::Head => self.head.is_settled = true,
            Part::Left => self.left.is_settled = true,
            Part::Right => self.right.is_settled = true,
        }
    }
}

/// The name of a file in the folder.
fn name_of(part: Part) -> &'static str {
    match part {
        Part::Head => "head",
        Part::Left => "left",
        Part::Right => "right",
    }
}

/// Counts the fault of a call that failed.
fn counted<T: Drop>(faults: &mut u64, done: io::Result<T>) -> Result<T, Failed>
    ensures cause { HasCause faults.old faults.new result }
    ensures value { IfOk result (λ value. done ≡ Ok value) }
{
    match done {
        Ok(value) => Ok(value),
        Err(_) => {
            *faults = faults.saturating_add(1);
            Err(Failed)
        }
    }
}
