use std::fs::{File, TryLockError};
use std::io;

/// A file that can be locked against each other handle of it, in this process or in another one.
pub trait LockFile {
    /// Takes the file's exclusive lock, without waiting. It is held until the handle is dropped. `false`
    /// where another handle has it.
    fn take_lock(&self) -> io::Result<bool>;
}

impl LockFile for File {
    fn take_lock(&self) -> io::Result<bool> {
        match self.try_lock() {
            Ok(()) => Ok(true),
            Err(TryLockError::WouldBlock) => Ok(false),
            Err(TryLockError::Error(fault)) => Err(fault),
        }
    }
}
